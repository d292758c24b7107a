//! Links between numbered places, in half a word each.

ghost use Rattle.std.specs.Prelude.{◌≡◌, ◌<◌, ◌+◌, ◌^◌, Some};
ghost use Rattle.pc_propagate.specs.inside.Links.{linked};

/// The link that leads nowhere.
pub(crate) const NOWHERE: u32 = 0;

/// A place in a list.
#[derive(Clone, Copy)]
pub(crate) struct Place {
    /// The link to the place after it, in its list.
    pub(crate) next: u32,
    /// The link to its list.
    pub(crate) list: u32,
}

/// Where a list begins and ends.
#[derive(Clone, Copy)]
pub(crate) struct Ends {
    /// The link to its first place.
    pub(crate) first: u32,
    /// Its last place, if it has one.
    pub(crate) last: u32,
}

/// The number to which the link leads, if it leads to one.
pub(crate) fn linked(link: u32) -> Option<usize>
    ensures { result ≡ linked link }
{
    if link == NOWHERE {
        None
    } else {
        Some(link as usize - 1)
    }
}

/// The link to the number.
pub(crate) fn link_to(number: usize) -> u32
    requires { number + 1 < 2 ^ 32 }
    ensures { linked result ≡ Some number }
{
    (number + 1) as u32
}
