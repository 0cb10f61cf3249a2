//! Tests of stations that talk by sockets, through public calls: sockets that follow a script, and
//! those of the loopback.

#[cfg(test)]
mod meshes;
#[cfg(test)]
mod scripted;
