// The words of the command line.
ghost use Rattle.std.specs.Prelude.{◌≡◌, map};
ghost use Rattle.std.specs.String.{string_bytes};
ghost use Rattle.cp_line.specs.Orders.{made_of, order_of, order_of_three, order_of_two, order_of_word, workers_of};

use crate::MAX_MADE;
use cp_base::MAX_HOSTS;
use cp_text::number;

/// What the words of the command line order.
#[derive(Clone, Copy, Debug, PartialEq, Eq)]
pub enum Order {
    /// `step <workers> <choices>`: a script is carried out by so many workers in turn. The choices select an
    /// interleaving.
    Step { workers: u32, choices: u64 },
    /// `serve <workers>`: a script is carried out by threads.
    Serve { workers: u32 },
    /// `make <seed> <commands>`: a load is made from a seed, carried out and summed up.
    Make { seed: u64, commands: u32 },
    /// `asm`: assembly text is made code.
    Asm,
    /// `dis`: code is made assembly text.
    Dis,
    /// `upgrade`: a script is written in the second version.
    Upgrade,
    /// `check`: a history is held against its script.
    Check,
}

/// What the words order. `None` where they are in no row of the table: the first word is none of the seven, a
/// word is missing or one too many, or a number is not spelled as in a script or is out of its range. Workers
/// are 1 to 16, commands at most 8,192. A word that begins with a minus is in no row.
pub fn read_words(words: &[String]) -> Option<Order>
    ensures { result ≡ order_of (map string_bytes words.now) }
{
    match words {
        [word] => read_one(word.as_str()),
        [word, workers] => read_two(word.as_str(), workers.as_str()),
        [word, first, second] => read_three(word.as_str(), first.as_str(), second.as_str()),
        _ => None,
    }
}

// What a word alone orders.
fn read_one(word: &str) -> Option<Order>
    ensures { result ≡ order_of_word word.now }
{
    match word {
        "asm" => Some(Order::Asm),
        "dis" => Some(Order::Dis),
        "upgrade" => Some(Order::Upgrade),
        "check" => Some(Order::Check),
        _ => None,
    }
}

// What a word and a number order.
fn read_two(word: &str, workers: &str) -> Option<Order>
    ensures { result ≡ order_of_two word.now workers.now }
{
    if word != "serve" {
        return None;
    }
    let workers = read_workers(workers)?;
    Some(Order::Serve { workers })
}

// What a word and two numbers order.
fn read_three(word: &str, first: &str, second: &str) -> Option<Order>
    ensures { result ≡ order_of_three word.now first.now second.now }
{
    match word {
        "step" => {
            let workers = read_workers(first)?;
            let choices = number(second.as_bytes())?;
            Some(Order::Step { workers, choices })
        }
        "make" => {
            let seed = number(first.as_bytes())?;
            let commands = read_commands(second)?;
            Some(Order::Make { seed, commands })
        }
        _ => None,
    }
}

// The number of workers that a text spells, 1 to 16.
fn read_workers(text: &str) -> Option<u32>
    ensures { result ≡ workers_of text.now }
{
    let workers = number(text.as_bytes())?;
    if workers == 0 || workers > u64::from(MAX_HOSTS) {
        return None;
    }
    Some(workers as u32)
}

// The number of commands of a load that a text spells.
fn read_commands(text: &str) -> Option<u32>
    ensures { result ≡ made_of text.now }
{
    let commands = number(text.as_bytes())?;
    if commands > u64::from(MAX_MADE) {
        return None;
    }
    Some(commands as u32)
}
