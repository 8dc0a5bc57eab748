// Lists of processes that a claim names.

ghost use Rattle.std.specs.Prelude.{◌≡◌, ◌↔◌, IsTrue};
ghost use Rattle.std.specs.Option.{option_to_list};
ghost use Rattle.apex_types.specs.Rising as rising;
ghost use Rattle.apex_types.specs.Rising.{IsRising};
ghost use Rattle.apex_machine.specs.Answer.{NamesExactly};
ghost use Rattle.apex_machine.specs.State.{is_named};
ghost use Rattle.wait_set.specs.Sets.{NobodyTwice};

use apex_types::Who;

/// Whether a list names only this process; if there is none, whether it names no process.
pub(crate) fn names_only(woken: Option<Who>, named: &[Who]) -> bool
    requires { IsRising named.now }
    ensures { IsTrue result ↔ NamesExactly (option_to_list woken) named.now }
{
    match woken {
        Some(who) => match named {
            [only] => *only == who,
            _ => false,
        },
        None => named.is_empty(),
    }
}

/// Whether no process occurs twice in a list. This is known at once if the list rises; else each process is looked up.
pub(crate) fn names_nobody_twice(named: &[Who]) -> bool
    ensures { IsTrue result ↔ NobodyTwice named.now }
{
    rises(named) || differ(named)
}

// Whether each process of a list comes after the one before it.
fn rises(named: &[Who]) -> bool
    ensures { IsTrue result ↔ IsRising named.now }
{
    let mut left = named;
    'pairs: while let [last, rest @ ..] = left {
        if let [next, ..] = rest {
            if !is_listed_before(*last, *next) {
                return false;
            }
        }
        left = rest;
    }
    true
}

// Whether each process of a list differs from those after it.
fn differ(named: &[Who]) -> bool
    ensures { IsTrue result ↔ NobodyTwice named.now }
{
    let mut left = named;
    'others: while let [first, rest @ ..] = left {
        if is_named(*first, rest) {
            return false;
        }
        left = rest;
    }
    true
}

// Whether a process comes after another: by its partition, and in one partition by its number.
fn is_listed_before(last: Who, who: Who) -> bool
    ensures { result ≡ rising.is_listed_before last who }
{
    last.part < who.part || (last.part == who.part && last.proc < who.proc)
}

// Whether a list names this process.
fn is_named(who: Who, named: &[Who]) -> bool
    ensures { result ≡ is_named who named.now }
{
    named.iter().any(|other| who == *other)
}
