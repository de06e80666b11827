// The table of sets.
ghost use Rattle.std.specs.Prelude.{◌≡◌, ◌↔◌, ℕ, ◌<◌, ◌≤◌, [], Some, None, IsSome, IsNone, IfOk, IfErr, IfSome, IfNone, OnSome, OnOk, OnErr, MatchResult, length, position, is_none, option_map, option_copied};
ghost use Rattle.cp_base.specs.Checks.{first_failing, set_checks};
ghost use Rattle.cp_base.specs.Configuration.{Configuration};
ghost use Rattle.cp_base.specs.Sets.{next_number, ranges_under, with_set, without_set};
ghost use Rattle.cp_base.specs.declared.lists.MemRange.{MemRange};
ghost use Rattle.range_sets.specs.Fit.{AllFit, AreFit, NumbersAscendFrom, regions_of};
ghost use Rattle.range_sets.specs.Places.{sets_from};

use crate::checks::check_ranges;
use cp_base::{Config, MAX_SETS, NoMemory, RangeList, Status};
use std::alloc::Global;
use std::marker::Model;

/// The sets of memory ranges, each under a number from 1 to 255. Contracts see the list of the sets in
/// order of their numbers.
#[derive(Debug, Drop)]
pub struct Sets {
    alloc: Global,
    places: Vec<Option<RangeList>>,
}

impl Model for Sets {
    ghost use Rattle.std.specs.Prelude.{◌≡◌, List, length};
    ghost use Rattle.cp_base.specs.Sets.{RangeSet};
    ghost use Rattle.cp_base.specs.declared.limits.TheConstants.{MAX_SETS};
    ghost use Rattle.range_sets.specs.Places.{sets_from};

    ghost Value = { List RangeSet };

    ghost view = { λ s. sets_from 1 s.places.items };

    ghost invariant = { λ s. length s.places.items ≡ MAX_SETS };
}

// The first place that is free.
fn free_place(places: &[Option<RangeList>]) -> Option<usize>
    ensures { result ≡ position (λ place. is_none place) places.now }
{
    places.iter().position(|place| place.is_none())
}

// The ranges of a number.
fn ranges_of(places: &[Option<RangeList>], id: u32) -> Option<&RangeList>
    ensures { option_copied result ≡ ranges_under (sets_from 1 places.now) id }
{
    if id == 0 || id as usize > places.len() {
        return None;
    }
    places[id as usize - 1].as_ref()
}

// Puts ranges in the first place that is free, and answers its number.
fn put(places: &mut Vec<Option<RangeList>>, ranges: RangeList) -> Option<u32>
    requires { length places.old.items ≡ MAX_SETS }
    ensures full { IfNone result (MAX_SETS ≤ length (sets_from 1 places.old.items)) }
    ensures room { OnSome result (length (sets_from 1 places.old.items) < MAX_SETS) }
    ensures number { IfSome result (λ number. number ≡ next_number (sets_from 1 places.old.items)) }
    ensures added { IfSome result (λ number. sets_from 1 places.new.items
        ≡ with_set (sets_from 1 places.old.items) (record { number = number; ranges = ranges })) }
    ensures places { length places.new.items ≡ MAX_SETS }
    ensures unchanged { IfNone result (places.new.items ≡ places.old.items) }
{
    let place = free_place(places)?;
    places[place] = Some(ranges);
    Some(place as u32 + 1)
}

// Frees the place of a number.
fn free(places: &mut Vec<Option<RangeList>>, id: u32)
    requires { IsSome (ranges_under (sets_from 1 places.old.items) id) }
    ensures freed { sets_from 1 places.new.items ≡ without_set (sets_from 1 places.old.items) id }
    ensures places { length places.new.items ≡ length places.old.items }
{
    places[id as usize - 1] = None;
}

impl Sets {
    /// No set yet, with the room for all of them.
    pub fn new(alloc: Global) -> Result<Sets, NoMemory>
        ensures { IfOk result (λ sets. sets ≡ []) }
    {
        let mut places = Vec::with_capacity(alloc, MAX_SETS as usize)?;
        for _ in 0..MAX_SETS {
            places.push(None)?;
        }
        Ok(Sets { alloc, places })
    }

    /// Makes a set of these ranges under the least free number, which is the answer. It takes no memory.
    ///
    /// # Errors
    ///
    /// The first of these that holds: `BadNamespace` where a range lies in no memory namespace, `BadLength`
    /// where one has no bytes, `OutOfRange` where one has a byte outside, `RangeOverlap` where two share a
    /// byte, whatever their accesses, `SetTableFull` where there are 255 sets. Then nothing changes.
    pub fn create(&mut self, config: &Config, ranges: &RangeList) -> Result<u32, Status>
        ensures checked { MatchResult result
            (λ _. first_failing (set_checks config.now (length self.old) (regions_of ranges.now)) ≡ None)
            (λ status. first_failing (set_checks config.now (length self.old) (regions_of ranges.now)) ≡ Some status) }
        ensures number { IfOk result (λ number. number ≡ next_number self.old) }
        ensures added { OnOk result (self.new
            ≡ with_set self.old (record { number = next_number self.old; ranges = ranges.now })) }
        ensures unchanged { OnErr result (self.new ≡ self.old) }

        ensures ascending { NumbersAscendFrom 1 self.new }
        ensures fit { OnOk result (AreFit config.now ranges.now) }
        ensures all_fit { AllFit config.now self.old → AllFit config.now self.new }
    {
        let alloc = self.alloc;
        check_ranges(config, ranges.as_slice())?;
        let kept = RangeList::new(alloc, ranges.as_slice()).unwrap();
        let Some(number) = put(&mut self.places, kept) else {
            return Err(Status::SetTableFull);
        };
        Ok(number)
    }

    /// Takes the set of a number away.
    ///
    /// # Errors
    ///
    /// `NoSuchSet` where there is none. Then nothing changes.
    pub fn delete(&mut self, id: u32) -> Result<(), Status>
        ensures found { OnOk result (IsSome (ranges_under self.old id)) }
        ensures missing { IfErr result (λ status. status ≡ Status.NoSuchSet) }
        ensures none { OnErr result (ranges_under self.old id ≡ None) }
        ensures deleted { OnOk result (self.new ≡ without_set self.old id) }
        ensures unchanged { OnErr result (self.new ≡ self.old) }

        ensures ascending { NumbersAscendFrom 1 self.new }
        ensures all_fit { (c : Configuration) → AllFit c self.old → AllFit c self.new }
    {
        if self.get(id).is_none() {
            return Err(Status::NoSuchSet);
        }
        free(&mut self.places, id);
        Ok(())
    }

    /// The ranges of the set of a number. `None` where there is none.
    pub fn get(&self, id: u32) -> Option<&RangeList>
        ensures ranges { option_copied result ≡ ranges_under self.now id }

        ensures ascending { NumbersAscendFrom 1 self.now }
        ensures fit { (c : Configuration) → AllFit c self.now → IfSome result (λ ranges. AreFit c ranges.now) }
    {
        ranges_of(&self.places, id)
    }
}
