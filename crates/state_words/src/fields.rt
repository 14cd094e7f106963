//! The fields of a word.
ghost use Rattle.std.specs.Prelude.{◌≡◌, ◌<◌, ◌/◌, ◌%◌, ◌^◌};
ghost use Rattle.omega_net.specs.Wires.{net_number};
ghost use Rattle.state_words.specs.Messages.{net_from};

use omega_net::Net;

/// The lowest 8 bits.
pub(crate) fn byte(word: u64) -> u8
    ensures { result ≡ word % 2 ^ 8 }
{
    (word % 256) as u8
}

/// The lowest 16 bits.
pub(crate) fn short(word: u64) -> u16
    ensures { result ≡ word % 2 ^ 16 }
{
    (word % 65_536) as u16
}

/// The lowest 32 bits.
pub(crate) fn low(word: u64) -> u32
    ensures { result ≡ word % 2 ^ 32 }
{
    (word % 4_294_967_296) as u32
}

/// The highest 32 bits.
pub(crate) fn high(word: u64) -> u32
    ensures { result ≡ word / 2 ^ 32 }
{
    (word >> 32) as u32
}

/// The number of a network.
pub(crate) fn net_number(net: Net) -> u64
    ensures value { result ≡ net_number net }
    ensures bit { result < 2 }
{
    match net {
        Net::Low => 0,
        Net::Comb => 1,
    }
}

/// The network of a number.
pub(crate) fn net_from(number: u64) -> Net
    ensures { result ≡ net_from number }
{
    if number == 0 { Net::Low } else { Net::Comb }
}
