//! Laws of the definitions that the contracts cite.
ghost use Rattle.nv_rpc.specs.Received.{ToldIsRead, ReadIsTold};

/// The value of a message is read as that message, but for what a value doesn't tell.
pub fn told_is_read()
    ensures { ToldIsRead }
{}

/// A value that is read as a message is that message's value.
pub fn read_is_told()
    ensures { ReadIsTold }
{}
