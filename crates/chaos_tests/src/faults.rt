//! Calls of the outside that fail.

/// A kind of object. A device is called by its write, cut or sync, a meter by a read through it, a stream by its read or
/// write.
#[derive(Clone, Copy, PartialEq, Eq, Debug)]
pub(crate) enum Kind {
    Graph,
    Values,
    Lane,
    Spill,
    /// The meter of a worker; the one behind the last worker is that of the calling thread.
    Meter,
    Source,
    Out,
    Err,
}

/// An object of the outside. `worker` is 0 of all but lanes, and `engine` is 0 of streams; meters are numbered by engines.
#[derive(Clone, Copy, PartialEq, Eq, Debug)]
pub(crate) struct Object {
    pub kind: Kind,
    pub worker: u32,
    pub engine: u32,
}

impl Object {
    pub(crate) const SOURCE: Object = Object {
        kind: Kind::Source,
        worker: 0,
        engine: 0,
    };

    pub(crate) const OUT: Object = Object {
        kind: Kind::Out,
        worker: 0,
        engine: 0,
    };

    pub(crate) const ERR: Object = Object {
        kind: Kind::Err,
        worker: 0,
        engine: 0,
    };

    pub(crate) fn new(kind: Kind, worker: u32, engine: u32) -> Object {
        Object {
            kind,
            worker,
            engine,
        }
    }
}

/// The call of an object with this number, from 1, fails.
#[derive(Clone, Copy, PartialEq, Eq, Debug)]
pub(crate) struct Fault {
    pub object: Object,
    pub number: u64,
}

impl Fault {
    /// No call has number 0.
    pub(crate) const NONE: Fault = Fault {
        object: Object::SOURCE,
        number: 0,
    };

    /// The number of the object's call that fails; 0 where none does.
    pub(crate) fn at(&self, object: Object) -> u64 {
        if self.object == object {
            self.number
        } else {
            0
        }
    }
}
