//! A network whose sockets hear of the errors of what they send.
use std::alloc::Global;
use std::io;
use std::net::{Net, SocketAddr, UdpSocket};
use std::time::{Clock, Duration};

/// Connects each UDP socket to one endpoint as it is bound: where nobody listens there, the system answers the next
/// call of a socket that sent something with an error.
#[derive(Drop)]
pub struct Connected<'a, R> {
    pub rt: &'a R,
    pub to: SocketAddr,
}

impl<R: Net> Net for Connected<'_, R> {
    type Stream = R::Stream;

    type Listener = R::Listener;

    fn bind(&self, addr: SocketAddr) -> io::Result<R::Listener> {
        self.rt.bind(addr)
    }

    fn connect(&self, addr: SocketAddr) -> io::Result<R::Stream> {
        self.rt.connect(addr)
    }

    fn bind_udp(&self, addr: SocketAddr) -> io::Result<UdpSocket> {
        let socket = self.rt.bind_udp(addr)?;
        socket.connect(self.to)?;
        Ok(socket)
    }
}

impl<R: AllocGlobal> Alloc for Connected<'_, R> {
    type A = Global;

    fn alloc(&self) -> Global {
        self.rt.alloc()
    }
}

impl<R: Clock> Clock for Connected<'_, R> {
    fn monotonic(&self) -> io::Result<Duration> {
        self.rt.monotonic()
    }

    fn since_1970(&self) -> io::Result<Duration> {
        self.rt.since_1970()
    }
}
