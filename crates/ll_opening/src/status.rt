//! The status port of a server, if its settings have one.
use crate::stop::{Stop, listening};
use ll_counts::Numbers;
use ll_status::StatusPort;
use std::alloc::Global;
use std::net::{Net, SocketAddr, TcpListener, TcpStream};
use std::sync::Wait;
use std::time::Clock;

/// Listens at `address`, if there is one.
pub(crate) fn open_status<'a, R: Net<Listener = TcpListener, Stream = TcpStream>>(
    rt: &'a R,
    alloc: Global,
    address: Option<SocketAddr>,
) -> Result<Option<StatusPort<'a, R>>, Stop> {
    let Some(address) = address else {
        return Ok(None);
    };
    let done = StatusPort::open(rt, alloc, address);
    Ok(Some(listening(alloc, done, address, "the status port")?))
}

/// Says on standard error where the status port is, if there is one.
pub(crate) fn say_status<R: Net<Listener = TcpListener, Stream = TcpStream> + Eprint>(
    rt: &R,
    status: &Option<StatusPort<'_, R>>,
) {
    if let Some(port) = status {
        let address = port.address();
        let _ = eprintln!(rt; "llhls: status on {address}");
    }
}

/// Serves those who connect at the status port, if there is one, from `numbers`.
pub fn serve_status<R: Clock + Eprint + Wait>(
    status: &mut Option<StatusPort<'_, R>>,
    numbers: &Numbers<'_, R>,
) {
    if let Some(port) = status {
        port.serve(numbers);
    }
}
