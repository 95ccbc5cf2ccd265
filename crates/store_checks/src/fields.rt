//! The fields of one head.
ghost use Rattle.std.specs.Prelude.{◌≡◌, ◌+◌, ◌<◌, ◌≤◌, ◌==◌, ◌&&◌, ◌||◌, ◌^◌, true, not, ℕ, length, nat_le, None, IfNone};
ghost use Rattle.std.specs.Int.{from_be_bytes, w64};
ghost use Rattle.std.specs.Int.{IsInRange};
ghost use Rattle.ports.specs.Bytes.{bytes_at};
ghost use Rattle.graph_model.specs.Partitions.{MAX_PARTS, part_count};
ghost use Rattle.graph_model.specs.Jobs;
ghost use Rattle.graph_model.specs.Jobs.{IsWellFormedJob, IsWellFormedProgram};
ghost use Rattle.store_model.specs.Heads.{program_number, argument};
ghost use Rattle.store_model.specs.Damage;
ghost use Rattle.store_model.specs.Damage.{first_bad};
ghost use Rattle.store_checks.specs.Jobs.{SaysJob};

use graph_model::{Job, Program};
use store_model::{FIELDS, Field};

/// The bytes of a graph device's head.
pub(crate) const HEAD_SIZE: usize = 65;

/// The last byte of a head.
const MARK: u64 = 0x47;

/// The place of the first field of a head of this engine that is not well formed.
pub(crate) fn bad_field(engine: u32, head: &[u8]) -> Option<u64>
    requires { length head.now ≡ 65 }
    ensures bad { result ≡ first_bad (Damage.is_good engine head.now) FIELDS }
    ensures small { IfNone result (engine < 256) }
{
    for field in &FIELDS {
        if !is_good(*field, engine, head) {
            return Some(place_of(*field));
        }
    }
    None
}

/// The place of the first field that is not as in the first head. The engine's number is no such field.
pub(crate) fn other_field(first: &[u8], head: &[u8]) -> Option<u64>
    requires first { length first.now ≡ 65 }
    requires head { length head.now ≡ 65 }
    ensures { result ≡ first_bad (Damage.is_same first.now head.now) FIELDS }
{
    for field in &FIELDS {
        if !is_same(*field, first, head) {
            return Some(place_of(*field));
        }
    }
    None
}

/// The job that a well-formed head says.
pub(crate) fn job_of(head: &[u8]) -> Job
    requires size { length head.now ≡ 65 }
    requires good { first_bad (Damage.is_good 0 head.now) FIELDS ≡ None }
    ensures formed { IsWellFormedJob result }
    ensures says { SaysJob head.now result }
{
    let program = program_of(
        value_of(Field::Program, head),
        value_of(Field::Argument, head),
    );
    Job {
        program,
        vertices: value_of(Field::Vertices, head) as u32,
        engines: value_of(Field::Engines, head) as u32,
        most: value_of(Field::Most, head) as u32,
        chunk: value_of(Field::Chunk, head) as u32,
        seed: value_of(Field::Seed, head),
        alpha: value_of(Field::Alpha, head) as u32,
        limit: value_of(Field::Limit, head) as u32,
        format: value_of(Field::Format, head) as u32,
        keep: 1,
    }
}

/// The program with this number and this argument.
fn program_of(number: u64, value: u64) -> Program
    requires number { number ≤ 4 }
    requires value { value < 2 ^ 32 }
    ensures number { program_number result ≡ number }
    ensures formed { (vertices : ℕ) → Damage.is_argument number vertices value ≡ true → IsWellFormedProgram vertices result }
    ensures argument { (vertices : ℕ) → Damage.is_argument number vertices value ≡ true → argument result ≡ value }
{
    match number {
        0 => Program::Bfs(value as u32),
        1 => Program::Labels,
        2 => Program::Sssp(value as u32),
        3 => Program::Degrees,
        _ => Program::PageRank(value as u32),
    }
}

/// The first byte of a field.
fn place_of(field: Field) -> u64
    ensures { result ≡ Damage.place_of field }
{
    match field {
        Field::Format => 1,
        Field::Engines => 2,
        Field::Engine => 3,
        Field::Program => 4,
        Field::Zero => 5,
        Field::Keep => 6,
        Field::Argument => 8,
        Field::Vertices => 16,
        Field::Most => 24,
        Field::Chunk => 32,
        Field::Seed => 40,
        Field::Alpha => 48,
        Field::Limit => 56,
        Field::Mark => 64,
    }
}

/// The number that stands in a field.
fn value_of(field: Field, head: &[u8]) -> u64
    requires { length head.now ≡ 65 }
    ensures { result ≡ Damage.value_of field head.now }
{
    match field {
        Field::Format => u64::from(head[1]),
        Field::Engines => u64::from(head[2]),
        Field::Engine => u64::from(head[3]),
        Field::Program => u64::from(head[4]),
        Field::Zero => u64::from(head[5]),
        Field::Keep => u64::from(u16::from_be_bytes([head[6], head[7]])),
        Field::Argument => number_at(head, 8),
        Field::Vertices => number_at(head, 16),
        Field::Most => number_at(head, 24),
        Field::Chunk => number_at(head, 32),
        Field::Seed => number_at(head, 40),
        Field::Alpha => number_at(head, 48),
        Field::Limit => number_at(head, 56),
        Field::Mark => u64::from(head[64]),
    }
}

/// Whether a field of a head of this engine is well formed.
fn is_good(field: Field, engine: u32, head: &[u8]) -> bool
    requires { length head.now ≡ 65 }
    ensures { result ≡ Damage.is_good engine head.now field }
{
    let value = value_of(field, head);
    let format = value_of(Field::Format, head);
    match field {
        Field::Format => is_within(1, 2, value),
        Field::Engines => is_within(1, 8, value),
        Field::Engine => value == u64::from(engine),
        Field::Program => value <= 4,
        Field::Zero => is_zero(value, format, value_of(Field::Keep, head)),
        Field::Keep => is_keep(value, format),
        Field::Argument => is_argument(
            value_of(Field::Program, head),
            value_of(Field::Vertices, head),
            value,
        ),
        Field::Vertices => value <= most_vertices(format),
        Field::Most => is_most(
            value_of(Field::Vertices, head),
            value_of(Field::Engines, head),
            value,
        ),
        Field::Chunk => is_within(1, 65_536, value),
        Field::Seed => true,
        Field::Alpha => value <= 10_000,
        Field::Limit => is_within(1, 1_000_000, value),
        Field::Mark => value == MARK,
    }
}

/// Whether a field of a head is as in the first one.
fn is_same(field: Field, first: &[u8], head: &[u8]) -> bool
    requires first { length first.now ≡ 65 }
    requires head { length head.now ≡ 65 }
    ensures { result ≡ Damage.is_same first.now head.now field }
{
    match field {
        Field::Engine => true,
        other => value_of(other, head) == value_of(other, first),
    }
}

/// Whether a number is from `low` to `high`.
fn is_within(low: u64, high: u64, value: u64) -> bool
    ensures { result ≡ Damage.within low high value }
{
    low <= value && value <= high
}

/// Whether the bytes that are to be zero are: one, and in format 1 those of the next field too.
fn is_zero(value: u64, format: u64, keep: u64) -> bool
    ensures { result ≡ ((value == 0) && (not (format == 1) || (keep == 0))) }
{
    value == 0 && (format != 1 || keep == 0)
}

/// Whether every checkpoint is durable. Format 1 has no field for it.
fn is_keep(value: u64, format: u64) -> bool
    ensures { result ≡ ((format == 1) || (value == 1)) }
{
    format == 1 || value == 1
}

/// Whether a number is an argument of this program over so many vertices.
fn is_argument(program: u64, vertices: u64, value: u64) -> bool
    ensures { result ≡ Damage.is_argument program vertices value }
{
    match program {
        0 | 2 => value < vertices,
        4 => is_within(1, 100_000, value),
        _ => value == 0,
    }
}

/// The most vertices of a store of this format.
fn most_vertices(format: u64) -> u64
    ensures { result ≡ Jobs.most_vertices format }
{
    if format == 1 { 4_194_304 } else { 67_108_864 }
}

/// Whether a number is the most vertices of a partition, and the partitions are few enough.
fn is_most(vertices: u64, engines: u64, most: u64) -> bool
    requires { engines < 256 }
    ensures { result ≡ (Damage.within 1 67108864 most && nat_le (part_count vertices engines most) MAX_PARTS) }
{
    is_within(1, 67_108_864, most) && has_few_parts(vertices, engines, most)
}

/// Whether so many vertices over so many engines have at most 64 partitions.
fn has_few_parts(vertices: u64, engines: u64, most: u64) -> bool
    requires engines { engines < 256 }
    requires most { IsInRange 1 67108864 most }
    ensures { result ≡ nat_le (part_count vertices engines most) MAX_PARTS }
{
    engines == 0 || vertices.div_ceil(engines * most).max(1) <= MOST_PARTS / engines
}

/// The most partitions of a store.
const MOST_PARTS: u64 = 64;

/// The number in the eight bytes from a place on, high byte first.
fn number_at(head: &[u8], at: usize) -> u64
    requires { at + 8 ≤ length head.now }
    ensures { result ≡ from_be_bytes w64 (bytes_at at 8 head.now) }
{
    u64::from_be_bytes([
        head[at],
        head[at + 1],
        head[at + 2],
        head[at + 3],
        head[at + 4],
        head[at + 5],
        head[at + 6],
        head[at + 7],
    ])
}
