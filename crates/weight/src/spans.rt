//! Links that a demand tells apart: those of its front change alike, and all others do.
ghost use Rattle.weight.specs.LinkSteps.{EachStep, EachFits, OverStep, OverFits};

use ring::Demand;

// Each figure of a run of links is changed.
fn step_span<T: Copy, F: Fn(T) -> T>(span: &mut [T], step: F)
    requires { EachFits (F.pre step) span.old }
    ensures { EachStep (F.post step) span.old span.new }
{
    for figure in span.iter_mut() {
        *figure = step(*figure);
    }
}

/// The figures of a ring's links, link k's at place k-1, are changed: of those of a demand's front, from its first node to the link before its second, by
/// `front`; of all others by `back`.
pub fn step_over<T: Copy, F: Fn(T) -> T, B: Fn(T) -> T>(
    line: &mut [T],
    demand: Demand,
    front: F,
    back: B,
)
    requires { OverFits (F.pre front) (B.pre back) demand line.old }
    ensures { OverStep (F.post front) (B.post back) demand line.old line.new }
{
    let i = demand.first as usize;
    let j = demand.second as usize;
    let n = line.len();
    step_span(&mut line[..i - 1], &back);
    step_span(&mut line[i - 1..j - 1], front);
    step_span(&mut line[j - 1..n], &back);
}
