//! Captures of other programs: records of pcap and pcapng files, read and written.
//!
//! # What is proved
//!
//! - `PcapReader::next_into` and `PcapngReader::next_into` return what the octets say, step by
//!   step: the header, an interface or a record with its time to the nanosecond, the end, or the
//!   first fault in the order of the octets (P1, P2, P3; C4 if the list of interfaces can't grow;
//!   C5 after a fault).
//! - The writers and `RecordSink` write each octet of the format. A refused record writes nothing.
//!   After a failed call of the device, a prefix of what was put is there.
//! - `AnySource::open` takes the format that is given, or the one that the first four octets name,
//!   and loses none of the octets that it read ahead (`Peeked`). Without a format it opens no gzip
//!   file (`plain`, `fault`).
//! - A record has no ticks if it is a Simple Packet Block whose interface has an `if_tsoffset`. It
//!   is written as a Simple Packet Block of the first interface, or not at all
//!   (`PcapngWriter::put`, `has_place`).
//! - Times of pcapng are exact in 128 bits (`moment_of`, `fine_time_of`, `ticks_in`, `seconds_of`).
//!
//! # Only tested
//!
//! - `test_values::packet`: devices that read or write one octet at a time and fail at each, and
//!   each allocation that fails.
//! - `checks/packets`: files of either order, with unknown blocks and options, that end at each
//!   octet, and what is written of them.
//! - `checks/failures`: failed reads and full files.
//! - `checks/tshark`: that this program and Wireshark read what was written.
#![tactic(auto)]

mod blocks;
mod fault;
mod field;
mod format;
mod info;
mod interface;
mod name;
mod octets;
mod options;
mod output;
mod pcap;
mod pcap_writer;
mod pcapng;
mod pcapng_writer;
mod peeked;
mod place;
mod put_fault;
mod record;
mod sink;
mod source;
mod stamp;
mod transfer;

pub use cap_linklayers::{LONGEST_RECORD, LinkFault, LinkLayer, frame_start, link_layer};
pub use fault::{OpenFault, SourceFault};
pub use format::{Format, format_of};
pub use info::{InterfaceHead, InterfaceInfo};
pub use name::{InterfaceName, LONGEST_NAME};
pub use octets::Endianness;
pub use pcap::{FileHeader, LONGEST_CAPTURED, Magic, PcapReader, Unit};
pub use pcap_writer::PcapWriter;
pub use pcapng::PcapngReader;
pub use pcapng_writer::PcapngWriter;
pub use place::{has_place, layer_for};
pub use put_fault::PutFault;
pub use record::{FineTime, RecordFault, RecordHeader, Step};
pub use sink::{AnySink, RecordSink, SinkFault};
pub use source::{AnySource, CaptureSource, RecordSource};
pub use stamp::Stamp;
