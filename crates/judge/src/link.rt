// Link by link: its number and its two loads, as the rows weigh them.
ghost use Rattle.std.specs.Prelude.{◌≤◌};
ghost use Rattle.ring.specs.Limits.{desk};
ghost use Rattle.reasons.specs.Findings.{First};
ghost use Rattle.judge.specs.Findings.{loads_findings};
ghost use Rattle.weight.specs.Weighed.{weighed_link};

use reasons::{Finding, Reason};
use ring::Link;
use weight::Weight;

/// 11: as many links as the ring has, and each the one that is due at its place.
pub(crate) fn judge_links(nodes: u32, weight: &Weight, links: &[Link]) -> Result<(), Finding>
    requires { nodes ≤ desk.nodes }
    ensures { First (loads_findings nodes (weighed_link weight.now) links.now) result }
{
    if links.len() != nodes as usize {
        return Err(Finding::at(Reason::WrongLink, 0));
    }
    for (k, &link) in links.iter().enumerate() {
        let due = weight.links[k];
        if link != due {
            return Err(Finding::at(Reason::WrongLink, k + 1));
        }
    }
    Ok(())
}
