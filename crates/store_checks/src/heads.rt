//! The heads of all graph devices.
ghost use Rattle.std.specs.Prelude.{◌≡◌, ◌≢◌, ℕ, ◌<◌, ◌≤◌, List, length, take, Some, None, IfOk, IfErr, OnOk, Err};
ghost use Rattle.std.specs.List.{All};
ghost use Rattle.ports.specs.Faults.{Rose};
ghost use Rattle.graph_model.specs.Jobs.{IsWellFormedJob};
ghost use Rattle.store_model.specs.Damage.{first_bad, first_over, is_good, head_of, head_fault, other_fault, heads_fault};
ghost use Rattle.store_checks.specs.Jobs.{SaysJob};
ghost use Rattle.store_checks.specs.Causes.{Tell, HasRecoverCause};
ghost use Rattle.store_reader.specs.declared.store.Part.TheVariants.{Graph};

use crate::RecoverFault;
use crate::fields::{HEAD_SIZE, bad_field, job_of, other_field};
use graph_model::Job;
use ports::{Disk, Failed};
use store_model::FIELDS;
use store_reader::Part;

/// The job of a store by the heads of its graph devices: each is well formed, they agree, and there are as many as they
/// say.
pub fn job_of_heads<D: Disk>(graphs: &[D], meter: &mut D::M) -> Result<Job, RecoverFault>
    requires some { 1 ≤ length graphs.now }
    requires sizes { All (λ disk. 65 ≤ (D.state disk).size) graphs.now }
    ensures formed { IfOk result IsWellFormedJob }
    ensures engines { IfOk result (λ job. job.engines ≡ length graphs.now) }
    ensures says { (told : List (List ℕ)) → Tell D.state graphs.now told → IfOk result (SaysJob (head_of told 0)) }
    ensures sound { (told : List (List ℕ)) → Tell D.state graphs.now told → OnOk result (heads_fault told ≡ None) }
    ensures later { D.M.faults meter.old ≤ D.M.faults meter.new }
    ensures calm { result ≢ Err RecoverFault.DiskFault → D.M.faults meter.new ≡ D.M.faults meter.old }
    ensures cause { IfErr result (HasRecoverCause (Rose (D.M.faults meter.old) (D.M.faults meter.new))
        (λ fault. (told : List (List ℕ)) → Tell D.state graphs.now told → heads_fault told ≡ Some fault)) }
{
    let first = match well_formed_head(&graphs[0], meter, 0) {
        Ok(first) => first,
        Err(fault) => return Err(fault),
    };
    if let Err(fault) = check_heads(graphs, meter) {
        return Err(fault);
    }
    if let Err(fault) = compare_heads(&first, graphs, meter) {
        return Err(fault);
    }
    let job = job_of(&first);
    let asked = graphs.len() as u32;
    if job.engines != asked {
        return Err(RecoverFault::EnginesDiffer {
            held: job.engines,
            asked,
        });
    }
    Ok(job)
}

/// Checks that each head is well formed. The number of an engine has one byte in its head, so more than 256 never are.
fn check_heads<D: Disk>(graphs: &[D], meter: &mut D::M) -> Result<(), RecoverFault>
    requires sizes { All (λ disk. 65 ≤ (D.state disk).size) graphs.now }
    ensures few { OnOk result (length graphs.now ≤ 256) }
    ensures sound { (told : List (List ℕ)) → Tell D.state graphs.now told → OnOk result (first_over (λ e. head_fault e (head_of told e)) (length told) ≡ None) }
    ensures later { D.M.faults meter.old ≤ D.M.faults meter.new }
    ensures calm { result ≢ Err RecoverFault.DiskFault → D.M.faults meter.new ≡ D.M.faults meter.old }
    ensures cause { IfErr result (HasRecoverCause (Rose (D.M.faults meter.old) (D.M.faults meter.new))
        (λ fault. (told : List (List ℕ)) → Tell D.state graphs.now told → first_over (λ e. head_fault e (head_of told e)) (length told) ≡ Some fault)) }
{
    for e in 0..graphs.len() {
        if let Err(fault) = well_formed_head(&graphs[e], meter, e as u32) {
            return Err(fault);
        }
    }
    Ok(())
}

/// Checks that each head is as the first one, but for the engine's number.
fn compare_heads<D: Disk>(first: &[u8], graphs: &[D], meter: &mut D::M) -> Result<(), RecoverFault>
    requires first { length first.now ≡ 65 }
    requires few { length graphs.now ≤ 256 }
    requires sizes { All (λ disk. 65 ≤ (D.state disk).size) graphs.now }
    ensures sound { (told : List (List ℕ)) → Tell D.state graphs.now told → OnOk result (first_over (λ e. other_fault first.now e (head_of told e)) (length told) ≡ None) }
    ensures later { D.M.faults meter.old ≤ D.M.faults meter.new }
    ensures calm { result ≢ Err RecoverFault.DiskFault → D.M.faults meter.new ≡ D.M.faults meter.old }
    ensures cause { IfErr result (HasRecoverCause (Rose (D.M.faults meter.old) (D.M.faults meter.new))
        (λ fault. (told : List (List ℕ)) → Tell D.state graphs.now told → first_over (λ e. other_fault first.now e (head_of told e)) (length told) ≡ Some fault)) }
{
    for e in 0..graphs.len() {
        if let Err(fault) = same_head(first, &graphs[e], meter, e as u32) {
            return Err(fault);
        }
    }
    Ok(())
}

/// The head of the graph device of an engine, which has one. It is well formed.
fn well_formed_head<D: Disk>(
    disk: &D,
    meter: &mut D::M,
    engine: u32,
) -> Result<[u8; HEAD_SIZE], RecoverFault>
    requires { 65 ≤ (D.state disk.now).size }
    ensures good { IfOk result (λ head. first_bad (is_good engine head) FIELDS ≡ None) }
    ensures small { OnOk result (engine < 256) }
    ensures read { (told : List ℕ) → (D.state disk.now).bytes ≡ Some told → IfOk result (λ head. head ≡ take 65 told) }
    ensures sound { (told : List ℕ) → (D.state disk.now).bytes ≡ Some told → OnOk result (head_fault engine (take 65 told) ≡ None) }
    ensures later { D.M.faults meter.old ≤ D.M.faults meter.new }
    ensures calm { result ≢ Err RecoverFault.DiskFault → D.M.faults meter.new ≡ D.M.faults meter.old }
    ensures cause { IfErr result (HasRecoverCause (Rose (D.M.faults meter.old) (D.M.faults meter.new))
        (λ fault. (told : List ℕ) → (D.state disk.now).bytes ≡ Some told → head_fault engine (take 65 told) ≡ Some fault)) }
{
    let head = read_head(disk, meter)?;
    match bad_field(engine, &head) {
        None => Ok(head),
        Some(place) => Err(damaged_head(engine, place)),
    }
}

/// Checks that a graph device's head is as the first one.
fn same_head<D: Disk>(
    first: &[u8],
    disk: &D,
    meter: &mut D::M,
    engine: u32,
) -> Result<(), RecoverFault>
    requires first { length first.now ≡ 65 }
    requires size { 65 ≤ (D.state disk.now).size }
    ensures sound { (told : List ℕ) → (D.state disk.now).bytes ≡ Some told → OnOk result (other_fault first.now engine (take 65 told) ≡ None) }
    ensures later { D.M.faults meter.old ≤ D.M.faults meter.new }
    ensures calm { result ≢ Err RecoverFault.DiskFault → D.M.faults meter.new ≡ D.M.faults meter.old }
    ensures cause { IfErr result (HasRecoverCause (Rose (D.M.faults meter.old) (D.M.faults meter.new))
        (λ fault. (told : List ℕ) → (D.state disk.now).bytes ≡ Some told → other_fault first.now engine (take 65 told) ≡ Some fault)) }
{
    let head = read_head(disk, meter)?;
    match other_field(first, &head) {
        None => Ok(()),
        Some(place) => Err(damaged_head(engine, place)),
    }
}

fn damaged_head(engine: u32, place: u64) -> RecoverFault
    ensures { result ≡ RecoverFault.Damaged Graph engine place }
{
    RecoverFault::Damaged {
        part: Part::Graph,
        engine,
        place,
    }
}

/// The first 65 bytes of a device.
fn read_head<D: Disk>(disk: &D, meter: &mut D::M) -> Result<[u8; HEAD_SIZE], RecoverFault>
    requires { 65 ≤ (D.state disk.now).size }
    ensures read { (told : List ℕ) → (D.state disk.now).bytes ≡ Some told → IfOk result (λ head. head ≡ take 65 told) }
    ensures later { D.M.faults meter.old ≤ D.M.faults meter.new }
    ensures calm { result ≢ Err RecoverFault.DiskFault → D.M.faults meter.new ≡ D.M.faults meter.old }
    ensures cause { IfErr result (λ fault. (fault ≡ RecoverFault.DiskFault) × Rose (D.M.faults meter.old) (D.M.faults meter.new)) }
{
    let mut head = [0; HEAD_SIZE];
    match disk.read_at(meter, 0, &mut head) {
        Ok(()) => Ok(head),
        Err(Failed) => Err(RecoverFault::DiskFault),
    }
}
