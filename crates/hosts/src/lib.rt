// A mask of hosts: those that are up, or those owed to a monitor number.
#![tactic(auto)]

ghost use Rattle.std.specs.Prelude.{◌≡◌, ◌<◌, true, false, get_or, set};
ghost use Rattle.basis.specs.Numbers.{mask, bits, count};
ghost use Rattle.basis.specs.Sizes.{hosts};

// Whether a host is in it.
pub fn has_host(up: u16, host: u8) -> bool
    requires { host < hosts }
    ensures { result ≡ get_or (bits hosts up) host false }
{
    (up >> host) % 2 == 1
}

// With a host that was not in it.
pub fn with_host(up: u16, host: u8) -> u16
    requires { (host < hosts) × (get_or (bits hosts up) host false ≡ false) }
    ensures { result ≡ mask (set (bits hosts up) host true) }
{
    up + (1 << host)
}

// Without a host that was in it.
pub fn without_host(up: u16, host: u8) -> u16
    requires { (host < hosts) × (get_or (bits hosts up) host false ≡ true) }
    ensures { result ≡ mask (set (bits hosts up) host false) }
{
    up - (1 << host)
}

// How many hosts are in it.
pub fn hosts_up(up: u16) -> u32
    ensures { result ≡ count (bits hosts up) }
{
    up.count_ones()
}
