// The row of links of an event: what ties it to others, where its excluded seconds stand, and whether it breaks a rule by itself.
// The rules beside others go by these rows alone.
ghost use Rattle.std.specs.Prelude.{◌+◌, ◌*◌, ◌≤◌, length};
ghost use Rattle.identities.specs.LinkRows.{LinkSmall, link_row, LinkPut};
ghost use Rattle.series.specs.LinkRows.{link_from};

use identities::rows::Link;
use identities::{IdentityRead, rows};

// Row k becomes that of what was gathered, with its excluded seconds from this place on.
// No From<IdentityRead>: where its excluded seconds begin and whether a rule is broken do not stand in it.
pub fn put_identity(links: &mut [u32], k: usize, y: IdentityRead, from: usize, broken: bool)
    requires k_in_bounds { 8 * k + 8 ≤ length links.old }
    requires link_small { LinkSmall (link_from y from broken) }
    ensures { LinkPut links.old k (link_row (link_from y from broken)) links.new }
{
    let uid = y.uid;
    let recurrence = y.recurrence;
    let kinds = y.kinds;
    let to = y.held;
    let link = Link {
        uid,
        recurrence,
        kinds,
        from,
        to,
        broken,
    };
    rows::put_link(links, k, link);
}
