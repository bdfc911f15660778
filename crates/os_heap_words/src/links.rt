//! The links from free item to free item.

ghost use Rattle.std.specs.Prelude.{◌≡◌, ◌<◌, ◌^◌};
ghost use Rattle.address_map.specs.Items.{link_target};

/// The address that a link leads to, which says how far from `from` that is. No link is 0, and leads to 0.
pub(crate) fn linked(from: u32, distance: u32) -> u32
    requires { link_target from distance < 2 ^ 32 }
    ensures { result ≡ link_target from distance }
{
    if distance == 0 {
        return 0;
    }
    from + distance
}
