// The bytes of every namespace, each as one flat list.
ghost use Rattle.std.specs.Prelude.{◌≡◌, ◌+◌, ◌*◌, ◌≤◌, ◌<◌, [], length, map, replicate, slice_get, unwrap_or, option_map, IfOk};
ghost use Rattle.cp_base.specs.Configuration.{numbered, with_numbered};
ghost use Rattle.cp_base.specs.Pieces.{patched};
ghost use Rattle.cp_base.specs.Buffer.{contents_of};
ghost use Rattle.cp_base.specs.Contents.{IsInside, all_zero, bytes_in, bytes_of, put, zeros};

use cp_base::{ByteRange, Bytes, Config, NoMemory, SpaceId};
use std::alloc::Global;
use std::marker::Model;

/// The bytes of every namespace. Contracts see the contents alone, and not how they are kept.
#[derive(Debug, Drop)]
pub struct Flat {
    alloc: Global,
    nvm: Vec<Bytes>,
    mem: Vec<Bytes>,
}

impl Model for Flat {
    ghost use Rattle.cp_base.specs.Contents.{Contents};
    ghost use Rattle.cp_base.specs.Buffer.{contents_of};

    ghost Value = { Contents };

    ghost view = { λ f. record { nvm = contents_of f.nvm.items; mem = contents_of f.mem.items } };
}

// A buffer of zeros for each of the sizes, which are in these units.
fn zeroed(alloc: Global, sizes: &[u32], unit: u32) -> Result<Vec<Bytes>, NoMemory>
    ensures { IfOk result (λ made. contents_of made.items ≡ zeros unit sizes.now) }
{
    let mut made = Vec::new(alloc);
    for size in sizes {
        made.push(Bytes::filled(alloc, u64::from(*size) * u64::from(unit), 0)?)?;
    }
    Ok(made)
}

// The bytes of a numbered space; none where there is no such space.
#[tactic(auto, using(crate::proofs::Numbers::numbered_contents))]
fn bytes_at(all: &[Bytes], number: u32) -> &[u8]
    ensures { result.now ≡ unwrap_or (numbered (contents_of all.now) number) [] }
{
    if number == 0 || number as usize > all.len() {
        return &[];
    }
    all[number as usize - 1].as_slice()
}

impl Flat {
    /// All bytes of the configured namespaces, each 0.
    pub fn new(alloc: Global, config: &Config) -> Result<Flat, NoMemory>
        ensures { IfOk result (λ flat. flat ≡ all_zero config.now) }
    {
        let nvm = zeroed(alloc, config.nvm(), config.block())?;
        let mem = zeroed(alloc, config.mem(), 1)?;
        Ok(Flat { alloc, nvm, mem })
    }

    // The bytes of a namespace; none where there is no such namespace.
    fn bytes(&self, space: SpaceId) -> &[u8]
        ensures { result.now ≡ bytes_of self.now space }
    {
        match space {
            SpaceId::Nvm(n) => bytes_at(&self.nvm, n),
            SpaceId::Mem(n) => bytes_at(&self.mem, n),
        }
    }

    /// The byte at a place of a namespace. `None` where the place is outside.
    pub fn byte(&self, space: SpaceId, at: u64) -> Option<u8>
        ensures { result ≡ slice_get (bytes_of self.now space) at }
    {
        self.bytes(space).get(at as usize).copied()
    }

    /// The bytes of a range, which the namespace has, where they are kept.
    pub fn slice(&self, range: &ByteRange) -> &[u8]
        requires { IsInside self.now range.now }
        ensures { result.now ≡ bytes_in self.now range.now }
    {
        let start = range.start() as usize;
        let len = range.len() as usize;
        &self.bytes(range.space())[start..start + len]
    }

    /// A copy of the bytes of a range, which the namespace has.
    pub fn piece(&self, range: &ByteRange) -> Result<Bytes, NoMemory>
        requires { IsInside self.now range.now }
        ensures { IfOk result (λ piece. piece.items ≡ bytes_in self.now range.now) }
    {
        Bytes::from_slice(self.alloc, self.slice(range))
    }

    /// Puts bytes over those of a range, which the namespace has.
    pub fn patch(&mut self, range: &ByteRange, bytes: &Bytes)
        requires inside { IsInside self.old range.now }
        requires length { length bytes.now.items ≡ range.now.len }
        ensures { self.new ≡ put self.old range.now.space range.now.start bytes.now.items }
    {
        let from = &bytes.as_slice()[..range.len() as usize];
        match range.space() {
            SpaceId::Nvm(n) => write_at(&mut self.nvm, n, range.start(), from),
            SpaceId::Mem(n) => write_at(&mut self.mem, n, range.start(), from),
        }
    }

    /// Puts the same byte over those of a range, which the namespace has. It takes no memory.
    pub fn fill(&mut self, range: &ByteRange, value: u8)
        requires { IsInside self.old range.now }
        ensures { self.new ≡ put self.old range.now.space range.now.start (replicate range.now.len value) }
    {
        match range.space() {
            SpaceId::Nvm(n) => fill_at(&mut self.nvm, n, range.start(), range.len(), value),
            SpaceId::Mem(n) => fill_at(&mut self.mem, n, range.start(), range.len(), value),
        }
    }
}

// Puts bytes over those of a numbered space from a place on.
fn write_at(all: &mut Vec<Bytes>, number: u32, start: u64, from: &[u8])
    requires some { 0 < length from.now }
    requires inside { start + length from.now ≤ length (unwrap_or (numbered (contents_of all.old.items) number) []) }
    ensures { contents_of all.new.items
        ≡ with_numbered (contents_of all.old.items) number
        (patched (unwrap_or (numbered (contents_of all.old.items) number) []) start from.now) }
{
    let space = &mut all[number as usize - 1];
    space.write(start, from);
}

// Puts the same byte over so many bytes of a numbered space from a place on.
fn fill_at(all: &mut Vec<Bytes>, number: u32, start: u64, n: u64, value: u8)
    requires some { 0 < n }
    requires inside { start + n ≤ length (unwrap_or (numbered (contents_of all.old.items) number) []) }
    ensures { contents_of all.new.items
        ≡ with_numbered (contents_of all.old.items) number
        (patched (unwrap_or (numbered (contents_of all.old.items) number) []) start (replicate n value)) }
{
    let space = &mut all[number as usize - 1];
    space.fill(start, n, value);
}
