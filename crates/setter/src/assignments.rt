// Lists of assignments, however they lie in lent memory, read from the front.
ghost use Rattle.std.specs.Prelude.{◌≡◌, ◌%◌, ◌^◌, ◌<◌, ◌==◌, Bool, true, ◌∷◌, List, [], length, MatchOption};
ghost use Rattle.std.specs.Iterator.{YieldsFirst, item_count};
ghost use Rattle.format.specs.declared.Assignment.{Assignment};
ghost use Rattle.setter.specs.Records.{records};

use format::Assignment;

// How many numbers an assignment takes in a list.
const RECORD: usize = 3;

// A list: the whole assignments that it holds, and whether it ends behind the last of them, not inside one more.
pub trait Assignments: Copy {
    ghost held: { Self → List Assignment };

    ghost complete: { Self → Bool };

    // The list doesn't end inside an assignment.
    fn is_whole(self) -> bool
        ensures { result ≡ complete self };

    // The first assignment and the list behind it.
    fn first_and_rest(self) -> Option<(Assignment, Self)>
        ensures { MatchOption result (held self ≡ [])
            (λ (parts : Assignment × Self). held self ≡ parts.0 ∷ held parts.1) };

    // The list knows that a number of 64 bits can count its assignments. One whose type doesn't say so may be of any length.
    fn is_few(self) -> bool
        ensures { result ≡ true → length (held self) < 2 ^ 64 }
    {
        false
    }
}

// Lists of a kind that never has more assignments than a number of 64 bits can count, for callers that rely on it.
pub trait Few: Assignments {
    // The list doesn't end inside an assignment. Nor has it more of them than a number of 64 bits can count.
    fn is_whole_and_few(self) -> bool
        ensures whole { result ≡ Self.complete self }
        ensures few { length (Self.held self) < 2 ^ 64 };
}

impl Assignments for &[Assignment] {
    ghost held = { λ list. list.now };

    ghost complete = { λ list. true };

    // A slice of records ends inside none.
    fn is_whole(self) -> bool {
        true
    }

    // The first record and the slice behind it.
    fn first_and_rest(self) -> Option<(Assignment, Self)> {
        let (first, rest) = self.split_first()?;
        Some((*first, rest))
    }

    // A slice never has more records than that.
    fn is_few(self) -> bool {
        true
    }
}

impl Few for &[Assignment] {
    // A slice of records ends inside none, and never has more.
    fn is_whole_and_few(self) -> bool {
        self.is_whole()
    }
}

// A list of numbers, three for each assignment: output, start and length in the buffer.
#[derive(Clone, Copy)]
pub struct Numbers<'a> {
    pub list: &'a [u64],
}

impl Assignments for Numbers<'_> {
    ghost held = { λ numbers. records numbers.list.now };

    ghost complete = { λ numbers. length numbers.list.now % 3 == 0 };

    // The numbers come in whole threes.
    fn is_whole(self) -> bool {
        self.list.len() % RECORD == 0
    }

    // The first three numbers, and those behind them.
    fn first_and_rest(self) -> Option<(Assignment, Self)> {
        let [output, start, len, rest @ ..] = self.list else {
            return None;
        };
        let first = Assignment {
            output: *output,
            start: *start,
            len: *len,
        };
        Some((first, Numbers { list: rest }))
    }

    // A slice never has more numbers than that.
    fn is_few(self) -> bool {
        true
    }
}

// The assignments of a list, one after the other.
#[derive(Clone, Copy)]
pub struct Held<L> {
    pub list: L,
}

impl<L: Assignments> Iterator for Held<L> {
    type Item = Assignment;

    ghost next_gives = { YieldsFirst (λ s. L.held s.list) };

    ghost remaining = { item_count (λ s. L.held s.list) };

    // The first assignment of what is left.
    fn next(&mut self) -> Option<Assignment> {
        let (first, rest) = self.list.first_and_rest()?;
        self.list = rest;
        Some(first)
    }
}
