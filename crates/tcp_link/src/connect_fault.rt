//! Why a server couldn't be connected to; `Link` tells it, and `tcp_relay` counts it.

ghost use Rattle.std.specs.Prelude.{◌≡◌};
ghost use Rattle.tcp_link.specs.ConnectFaults.{connect_fault_of};

/// Why a server couldn't be connected to.
#[derive(Clone, Copy, Debug, PartialEq, Eq)]
pub enum ConnectFault {
    /// It refused the connection.
    Refused,
    /// It didn't answer.
    TimedOut,
    /// No local port was left.
    NoPort,
    /// For another cause.
    Other,
}

/// Why a server couldn't be connected to, and the number of the system's error (connect(2)).
#[derive(Clone, Copy, Debug, PartialEq, Eq)]
pub struct Unreached {
    pub fault: ConnectFault,
    pub error: u32,
}

/// Why a connect failed, by the number of its socket's error (connect(2)). None where that is of a connection that was made.
pub fn connect_fault_of(number: u32) -> Option<ConnectFault>
    ensures { result ≡ connect_fault_of number }
{
    // ECONNREFUSED
    if number == 111 {
        return Some(ConnectFault::Refused);
    }
    // ETIMEDOUT
    if number == 110 {
        return Some(ConnectFault::TimedOut);
    }
    // EADDRNOTAVAIL, EAGAIN
    if number == 99 || number == 11 {
        return Some(ConnectFault::NoPort);
    }
    // EPIPE, ECONNRESET
    if number == 32 || number == 104 {
        return None;
    }
    Some(ConnectFault::Other)
}
