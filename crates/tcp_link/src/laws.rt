//! What a connection that ends owes nobody any more; each law is the contract of an empty function, which no code calls.

ghost use Rattle.tcp_link.specs.Delivery.{DeliveryLaw, ResetLaw};

/// No byte that was taken of a side is dropped as a connection ends, but by a timeout, a drain's end, a failure of the side that it
/// is owed to, or what breaks a connection: no memory, a client that fails before a server has accepted, a side that goes on sending
/// to one that has failed.
pub fn delivers()
    ensures { DeliveryLaw }
{}

/// A side is reset only once all that was taken of the other one was given to it, and it has had a second since to take it.
pub fn resets_late()
    ensures { ResetLaw }
{}
