// What is recovered of a store of one engine, read byte by byte as its format says, with no care for time.
use crate::RecoverFault;
use crate::test_stores::{Answer, graph_is_damaged, values_are_damaged};

/// What a head says, as far as the checks behind it ask.
#[derive(Clone, Copy)]
struct PlainHead {
    format: u64,
    vertices: u64,
    parts: u64,
    chunk: u64,
}

/// The byte at a place; zero behind the end.
fn byte(bytes: &[u8], at: usize) -> u8 {
    match bytes.get(at) {
        Some(byte) => *byte,
        None => 0,
    }
}

/// The number in so many bytes from a place on, high byte first.
fn number(bytes: &[u8], at: usize, width: usize) -> u64 {
    let mut number: u64 = 0;
    for k in 0..width {
        let next = u64::from(byte(bytes, at.saturating_add(k)));
        number = number.wrapping_mul(256).wrapping_add(next);
    }
    number
}

fn is_from_to(low: u64, high: u64, value: u64) -> bool {
    low <= value && value <= high
}

/// The fewest partitions: a multiple of the engines, of which none has more vertices than `most`. None where more than
/// 64 are needed.
fn fewest_parts(vertices: u64, engines: u64, most: u64) -> Option<u64> {
    for parts in 1..65_u64 {
        let is_multiple = parts.checked_rem(engines) == Some(0);
        if is_multiple && parts.saturating_mul(most) >= vertices {
            return Some(parts);
        }
    }
    None
}

fn is_argument(program: u64, vertices: u64, argument: u64) -> bool {
    match program {
        0 | 2 => argument < vertices,
        4 => is_from_to(1, 100_000, argument),
        _ => argument == 0,
    }
}

/// The first byte of the first field of the head of engine 0 that is not well formed.
fn bad_field(head: &[u8]) -> Option<u64> {
    let format = number(head, 1, 1);
    let engines = number(head, 2, 1);
    let program = number(head, 4, 1);
    let vertices = number(head, 16, 8);
    let most = number(head, 24, 8);
    let zeros = if format == 1 { 3 } else { 1 };
    let most_vertices = if format == 1 { 4_194_304 } else { 67_108_864 };
    let checks = [
        (1, is_from_to(1, 2, format)),
        (2, is_from_to(1, 8, engines)),
        (3, number(head, 3, 1) == 0),
        (4, program <= 4),
        (5, number(head, 5, zeros) == 0),
        (6, format == 1 || number(head, 6, 2) == 1),
        (8, is_argument(program, vertices, number(head, 8, 8))),
        (16, vertices <= most_vertices),
        (
            24,
            is_from_to(1, 67_108_864, most) && fewest_parts(vertices, engines, most).is_some(),
        ),
        (32, is_from_to(1, 65_536, number(head, 32, 8))),
        (48, number(head, 48, 8) <= 10_000),
        (56, is_from_to(1, 1_000_000, number(head, 56, 8))),
        (64, number(head, 64, 1) == 0x47),
    ];
    for (place, is_good) in &checks {
        if !*is_good {
            return Some(*place);
        }
    }
    None
}

/// Whether an edge is of a partition.
fn is_edge_of(head: &PlainHead, partition: u64, edge: &[u8]) -> bool {
    let source = number(edge, 0, 4);
    let span = head.vertices.div_ceil(head.parts.max(1));
    source < head.vertices
        && number(edge, 4, 4) < head.vertices
        && number(edge, 8, edge.len().saturating_sub(8)) <= 1_099_511_627_775
        && source.checked_div(span) == Some(partition)
}

/// The bytes of the chunk at the front of these. None where there is none.
fn chunk_size(head: &PlainHead, bytes: &[u8]) -> Option<usize> {
    let partition = number(bytes, 0, 4);
    let count = number(bytes, 4, 4);
    let width: usize = if head.format == 1 { 12 } else { 16 };
    if partition >= head.parts || !is_from_to(1, head.chunk, count) {
        return None;
    }
    for k in 0..count {
        let from = width.saturating_mul(k as usize).saturating_add(8);
        let edge = bytes.get(from..from.saturating_add(width))?;
        if !is_edge_of(head, partition, edge) {
            return None;
        }
    }
    Some(width.saturating_mul(count as usize).saturating_add(8))
}

/// The first byte of the first chunk that is none.
fn bad_chunk(head: &PlainHead, graph: &[u8]) -> Option<u64> {
    let mut at: usize = 65;
    for _ in 0..graph.len() {
        let Some(rest) = graph.get(at..) else {
            return None;
        };
        if rest.is_empty() {
            return None;
        }
        match chunk_size(head, rest) {
            Some(size) => at = at.saturating_add(size),
            None => return Some(at as u64),
        }
    }
    None
}

/// The round and the changes of a slot, from its bytes; None where it is closed, and the fault where it is damaged.
fn round_of(slot: u64, own: u64, bytes: &[u8]) -> Result<Option<(u64, u64)>, Answer> {
    let round = number(bytes, 8, 8);
    let changed = number(bytes, 16, 8);
    if number(bytes, 0, 1) != 0xA5 {
        return Ok(None);
    }
    if round % 2 != slot || round > 1_000_000 || changed > own {
        let size = own.saturating_mul(16).saturating_add(24);
        return Err(values_are_damaged(slot.saturating_mul(size)));
    }
    Ok(Some((round, changed)))
}

/// What is recovered of a values device.
fn of_values(own: u64, values: &[u8]) -> Answer {
    let size = own.saturating_mul(16).saturating_add(24);
    if values.len() as u64 != size.saturating_mul(2) {
        return values_are_damaged(0);
    }
    let Some(second) = values.get(size as usize..) else {
        return values_are_damaged(0);
    };
    match (round_of(0, own, values), round_of(1, own, second)) {
        (Err(fault), _) => fault,
        (Ok(_), Err(fault)) => fault,
        (Ok(None), Ok(None)) => Answer::Fresh,
        (Ok(Some((round, changed))), Ok(None)) => Answer::Found { round, changed },
        (Ok(None), Ok(Some((round, changed)))) => Answer::Found { round, changed },
        (Ok(Some(even)), Ok(Some(odd))) => {
            let (round, changed) = if even.0 < odd.0 { odd } else { even };
            Answer::Found { round, changed }
        }
    }
}

/// What is recovered of a store of one engine.
pub(crate) fn plain_answer(graph: &[u8], values: &[u8]) -> Answer {
    if graph.len() < 65 || number(graph, 0, 1) != 0xA5 {
        return Answer::Fault(RecoverFault::NotPrepared);
    }
    if let Some(place) = bad_field(graph) {
        return graph_is_damaged(place);
    }
    let held = u32::from(byte(graph, 2));
    if held != 1 {
        return Answer::Fault(RecoverFault::EnginesDiffer { held, asked: 1 });
    }
    let vertices = number(graph, 16, 8);
    let head = PlainHead {
        format: number(graph, 1, 1),
        vertices,
        parts: fewest_parts(vertices, 1, number(graph, 24, 8)).unwrap_or(0),
        chunk: number(graph, 32, 8),
    };
    match bad_chunk(&head, graph) {
        Some(place) => graph_is_damaged(place),
        None => of_values(vertices, values),
    }
}
