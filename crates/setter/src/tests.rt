// What no program here calls: the setter over a list of another kind, and what a slice says of its length.
ghost use Rattle.std.specs.Prelude.{true, replicate};

use super::*;
use std::test::Fail;

// One assignment, as often as a number says: a list that leaves `is_few` to the trait.
#[derive(Clone, Copy)]
struct Again {
    a: Assignment,
    times: u8,
}

impl Assignments for Again {
    ghost held = { λ s. replicate s.times s.a };

    ghost complete = { λ s. true };

    // It ends inside no assignment.
    fn is_whole(self) -> bool {
        true
    }

    // The assignment, and the list that has it once less.
    fn first_and_rest(self) -> Option<(Assignment, Self)> {
        let times = self.times.checked_sub(1)?;
        Some((self.a, Again { times, ..self }))
    }
}

// A slice of records says that it is whole, by either name.
#[test]
fn slices_are_whole() -> Result<(), Fail> {
    let a = Assignment {
        output: 0,
        start: 0,
        len: 34,
    };
    let list: &[Assignment] = &[a];
    if !(list.is_whole() && list.is_whole_and_few()) {
        Err("a slice that isn't whole")?;
    }
    Ok(())
}

// The one output has to be named, and not twice.
#[test]
fn lists_of_another_kind() -> Result<(), Fail> {
    let psbt = Psbt {
        tx_version: 2,
        fallback_locktime: None,
        tx_modifiable: None,
        inputs: 0,
        outputs: 1,
    };
    let a = Assignment {
        output: 0,
        start: 1,
        len: 34,
    };
    let state = State {
        set: false,
        written: false,
    };
    let mut buffer = [7; 35];
    buffer[1] = 0x51;
    buffer[2] = 0x20;
    for (times, number) in [(0, 19), (1, 0), (2, 19)] {
        let list = Again { a, times };
        let mut scripts = [9; 35];
        let answer = set_assigned(&[], &[], &[0; 4], psbt, list, &buffer, state, &mut scripts);
        let refused = match answer {
            Ok(_) => 0,
            Err(e) => e.number(),
        };
        if refused != number {
            Err("not the answer for so many assignments")?;
        }
    }
    Ok(())
}
