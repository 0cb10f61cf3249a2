//! The command over scripted sockets, and over those of the loopback.

mod datagrams;
mod failures;
mod loopback;

use crate::mesh::scripted::Scripted;
use cmd_mesh::{MeshOptions, Sockets, mesh_over};
use cmd_reporting::{Io, OutputFormat, Status};
use std::alloc::{AllocError, Global};
use std::test::Fail;

/// Station 1 is 50 m north of station 0.
static STATIONS: &str = "\
station = [
  {address = \"1400020000000001\", lat = 0, lon = 0},
  {address = \"1400020000000002\", lat = 449, lon = 0},
]
";

/// Station 1 opens port 2002.
static OPEN: &str = "station = 1, at = 0, do = \"open\", port = 2002";

/// Station 0 sends a geobroadcast for a circle of 100 m round it, with ten hops: frame 0.
static SEND: &str = "station = 0, at = 1000, do = \"gbc\", port = 2002, info = 0, tc = 0, lt = 26, \
    hops = 10, shape = \"circle\", alat = 0, alon = 0, a = 100, b = 0, angle = 0, \
    payload = \"6869\"";

/// What the sockets do by themselves.
static DELIVER: &str = "station = 1, at = 1010, do = \"deliver\", frame = 0";

/// The lines of these three events.
const LINES: &str = "0 1 opened\n1000 0 sent 0\n\
    1000 1 accepted port 2002 info 0 6869 sent 1\n1000 0 ignored own-source\n";

/// The lines before the first datagram comes to station 1, and those after it.
const BEFORE: &str = "0 1 opened\n1000 0 sent 0\n";

static AFTER: &str = "1000 1 accepted port 2002 info 0 6869 sent 1\n1000 0 ignored own-source\n";

/// What `mesh` left: its status, standard output and standard error.
#[derive(Drop)]
struct Left {
    status: Status,
    out: Vec<u8>,
    err: Vec<u8>,
}

/// Runs the mesh of a scenario over these sockets.
fn left_of<S: Sockets>(alloc: Global, text: &str, options: MeshOptions, sockets: &mut S) -> Left {
    let (mut out, mut err) = (Vec::new(alloc), Vec::new(alloc));
    let mut io = Io {
        out: &mut out,
        err: &mut err,
        format: OutputFormat::default(),
    };
    let status = mesh_over(alloc, "a.toml", text.as_bytes(), options, sockets, &mut io);
    Left { status, out, err }
}

/// A scenario of these stations and events.
fn scenario(alloc: Global, stations: &str, events: &[&str]) -> Result<String, AllocError> {
    let mut text = stations.to_string(alloc)?;
    text.push_str("event = [\n")?;
    for event in events {
        text.push_str("{")?;
        text.push_str(event)?;
        text.push_str("},\n")?;
    }
    text.push_str("]\n")?;
    Ok(text)
}

/// What the three events leave where these datagrams come to station 1 before frame 0.
fn left_with(alloc: Global, planted: &[Vec<u8>]) -> Result<Left, Fail> {
    let text = scenario(alloc, STATIONS, &[OPEN, SEND, DELIVER])?;
    let mut sockets = Scripted::new(alloc, planted, None);
    Ok(left_of(alloc, text.as_str(), MeshOptions::default(), &mut sockets))
}
