//! The fields of heads.

/// A field of the head of a graph device, behind its gate.
#[derive(Clone, Copy, PartialEq, Eq, Debug)]
pub enum Field {
    /// The format of the store.
    Format,
    /// The number of engines.
    Engines,
    /// The number of the device's own engine.
    Engine,
    Program,
    /// What is zero: one byte, and in format 1 the two that are `Keep` in format 2.
    Zero,
    Keep,
    /// The root or the rounds of the program.
    Argument,
    Vertices,
    Most,
    Chunk,
    Seed,
    Alpha,
    Limit,
    /// The last byte of a head.
    Mark,
}

/// All fields, in order of their places.
pub const FIELDS: [Field; 14] = [
    Field::Format,
    Field::Engines,
    Field::Engine,
    Field::Program,
    Field::Zero,
    Field::Keep,
    Field::Argument,
    Field::Vertices,
    Field::Most,
    Field::Chunk,
    Field::Seed,
    Field::Alpha,
    Field::Limit,
    Field::Mark,
];
