//! How long a frame keeps the channel busy.

ghost use Rattle.std.specs.Prelude.{◌≡◌};
ghost use Rattle.cap_linklayers.specs.AirTime.{air_time as air_time_of};

/// Returns the air time in microseconds of an Ethernet frame of this length in octets, sent at 6
/// Mbit/s in a channel of 10 MHz (IEEE 802.11, OFDM). Preamble and signal field take 40
/// microseconds. Each symbol takes 8 microseconds and carries 48 bits of the service field, the
/// frame and the tail. On the air, 26 octets of QoS header, 8 of LLC and SNAP and 4 of check
/// sequence replace the 14 octets of Ethernet's header.
pub fn air_time(length: u32) -> u64
    ensures { result ≡ air_time_of length }
{
    let bits = 22 + 8 * (u64::from(length) + 24);
    40 + 8 * bits.div_ceil(48)
}
