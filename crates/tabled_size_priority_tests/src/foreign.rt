//! A priority that the library doesn't know.
use crate::sums::fits;
use std::io;
use std::io::Print;
use tabled_size_priority::Peaker;

// Names the one column, then the other, and so on, and counts how often it was called.
#[derive(Drop)]
struct Named {
    now: Option<usize>,
    then: Option<usize>,
    asked: u64,
}

impl Peaker for Named {
    ghost use Rattle.std.specs.Prelude.{◌≡◌};
    ghost use Rattle.tabled_size_priority.specs.Running.{IsGrownBy, IsShrunkBy};

    ghost peaks = { λ before _ _ answer after. (answer ≡ before.now) × (after.now ≡ before.then) × (after.then ≡ before.now) };

    ghost shrinks = { IsShrunkBy (λ before _ _ answer after. (answer ≡ before.now) × (after.now ≡ before.then) × (after.then ≡ before.now)) };

    ghost grows = { IsGrownBy (λ before _ _ answer after. (answer ≡ before.now) × (after.now ≡ before.then) × (after.then ≡ before.now)) };

    ghost answers_shrink = { λ _ _ _ _ _ _ _ run. run };

    ghost answers_grow = { λ _ _ _ _ _ run. run };

    fn peak(&mut self, _mins: &[usize], _values: &[usize]) -> Option<usize> {
        let answer = self.now;
        self.now = self.then;
        self.then = answer;
        self.asked = self.asked.wrapping_add(1);
        answer
    }
}

const ANSWERS: [(Option<usize>, Option<usize>); 6] = [
    (Some(0), Some(0)),
    (Some(9), Some(9)),
    (None, None),
    (Some(0), Some(1)),
    (Some(1), Some(2)),
    (Some(1), None),
];

// Through its bound alone.
fn shrunk<P: Peaker>(priority: &mut P, widths: [usize; 2], by: usize) -> [usize; 2] {
    let mut sizes = widths;
    if fits(&sizes, 0) {
        priority.shrink(&mut sizes, &[1, 1], by);
    }
    sizes
}

fn grown<P: Peaker>(priority: &mut P, widths: [usize; 2], by: usize) -> [usize; 2] {
    let mut sizes = widths;
    if fits(&sizes, by) {
        priority.grow(&mut sizes, by);
    }
    sizes
}

/// Prints how often the tests' own priorities are called, and what is made of their answers.
pub(crate) fn print_foreign(rt: &impl Print) -> io::Result<()> {
    for (now, then) in ANSWERS {
        let mut priority = Named {
            now,
            then,
            asked: 0,
        };
        let sizes = shrunk(&mut priority, [1, 5], 3);
        println!(rt;
            "{now:?}, {then:?} shrinks [1, 5] by 3, least [1, 1]: {sizes:?}, asked {}",
            priority.asked
        )?;
        let mut priority = Named {
            now,
            then,
            asked: 0,
        };
        let sizes = grown(&mut priority, [1, 5], 3);
        println!(rt;
            "{now:?}, {then:?} grows [1, 5] by 3: {sizes:?}, asked {}",
            priority.asked
        )?;
    }
    Ok(())
}
