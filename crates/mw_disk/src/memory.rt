ghost use Rattle.std.specs.Prelude.{◌≡◌, ◌≢◌, ◌⊎◌, is_some, ◌+◌, ◌<◌, ◌≤◌, ◌++◌, ◌∷◌, [], Some, IfOk, OnOk, OnErr, length, min, take, drop, ◌-◌, replicate, vec_len, vec_capacity, is_ok, IsErrOf, IsTrue, ◌↔◌, if◌then◌else◌};
ghost use Rattle.mw_disk.specs.Calls.{bytes_of, IsImage};
ghost use Rattle.mw_disk.specs.Calls.{IsImageSince, fault_count, is_failed as answered_failed, planned_answer, AnswersPlan, IsNoted, read_answer};
ghost use Rattle.mw_disk.specs.Causes.{HasCause};
ghost use Rattle.mw_disk.specs.Crash.{Torn, CutShort, Follows, Stays, OnlyTold, Elapses};
ghost use Rattle.mw_disk.specs.Range.{GivesRange, written};
ghost use Rattle.std.specs.Option.{option_map};

use crate::calls::{DiskCall, MadeCall, Tear};
use crate::disk::{Disk, DiskError};
use crate::tear::replay;
use mw_base::{Bytes, List, Memory};
use std::alloc::Global;
use std::marker::Model;

/// A disk in memory, whose calls fail as planned, and which keeps a record of all calls. Contracts
/// see the bytes that it began with, which are safe from a crash, the record and the plan.
#[derive(Drop)]
pub struct MemDisk {
    alloc: Global,
    start: Bytes,
    bytes: Vec<u8>,
    calls: Vec<MadeCall>,
    failing: List<(u64, DiskError)>,
}

impl Model for MemDisk {
    ghost use Rattle.std.specs.Prelude.{◌≡◌};
    ghost use Rattle.mw_disk.specs.Calls.{DiskHistory, bytes_of};

    ghost Value = { DiskHistory };

    ghost view = { λ d. record { start = d.start; calls = d.calls.items; failing = d.failing } };

    ghost invariant = { λ d. d.bytes.items ≡ bytes_of d.start d.calls.items };
}

/// Reads bytes from a place on.
pub(crate) fn get_range(bytes: &[u8], at: u64, into: &mut [u8]) -> usize
    ensures bound { result ≤ length into.old }
    ensures bytes { GivesRange (Some bytes.now) at result into.new }
{
    if at >= bytes.len() as u64 {
        return 0;
    }
    let rest = &bytes[at as usize..];
    let count = into.len().min(rest.len());
    into[..count].copy_from_slice(&rest[..count]);
    count
}

/// Writes bytes over others.
fn overwrite(bytes: &mut Vec<u8>, at: usize, put: &[u8])
    requires { at + length put.now ≤ vec_len bytes.old }
    ensures { bytes.new.items
        ≡ take at bytes.old.items ++ put.now ++ drop (at + length put.now) bytes.old.items }
{
    bytes[at..at + put.len()].copy_from_slice(put);
}

/// Lengthens bytes with zeros. After `Memory` they are as before.
pub(crate) fn lengthen(bytes: &mut Vec<u8>, len: usize) -> Result<(), Memory>
    ensures ok { OnOk result (bytes.new.items
        ≡ take len bytes.old.items ++ replicate (len - length bytes.old.items) 0) }
    ensures len { OnOk result (vec_len bytes.new ≡ len) }
    ensures err { OnErr result (bytes.new.items ≡ bytes.old.items) }
{
    bytes.resize(len, 0)?;
    Ok(())
}

/// Writes bytes at a place. After `Memory` they are as before.
#[tactic(auto, using(crate::proofs::Ranges::grown_written, crate::proofs::Ranges::within_written))]
pub(crate) fn put_range(bytes: &mut Vec<u8>, at: usize, put: &[u8]) -> Result<(), Memory>
    ensures ok { OnOk result (bytes.new.items ≡ written at put.now bytes.old.items) }
    ensures err { OnErr result (bytes.new.items ≡ bytes.old.items) }
{
    let end = at.checked_add(put.len()).ok_or(Memory)?;
    if end > bytes.len() {
        lengthen(bytes, end)?;
        overwrite(bytes, at, put);
        return Ok(());
    }
    overwrite(bytes, at, put);
    Ok(())
}

/// Cuts bytes to a length.
pub(crate) fn cut_to(bytes: &mut Vec<u8>, len: u64)
    ensures { bytes.new.items ≡ take len bytes.old.items }
{
    bytes.truncate(len as usize);
}

/// Puts a call into a record that has room for it.
fn note(calls: &mut Vec<MadeCall>, call: DiskCall, answer: Result<(), DiskError>)
    requires { vec_len calls.old < vec_capacity calls.old }
    ensures { calls.new.items
        ≡ calls.old.items ++ (record { call = call; answer = answer }) ∷ [] }
{
    calls.push(MadeCall { call, answer }).unwrap();
}

/// The answer that is planned for the call of a number, or Ok.
fn planned(failing: &[(u64, DiskError)], number: usize) -> Result<(), DiskError>
    ensures { result ≡ planned_answer failing.now number }
{
    for plan in failing {
        if plan.0 == number as u64 {
            return Err(plan.1);
        }
    }
    Ok(())
}

/// Does a write that isn't planned to fail.
fn write_planned(
    bytes: &mut Vec<u8>,
    plan: Result<(), DiskError>,
    at: u64,
    put: &[u8],
) -> Result<(), DiskError>
    ensures bytes { bytes.new.items
        ≡ (if is_ok result then written at put.now bytes.old.items else bytes.old.items) }
    ensures failed { result ≡ Err DiskError.Failed → plan ≡ Err DiskError.Failed }
    ensures planned { AnswersPlan plan result }
{
    match plan {
        Ok(()) => match put_range(bytes, at as usize, put) {
            Ok(()) => Ok(()),
            Err(_) => Err(DiskError::Memory),
        },
        Err(error) => Err(error),
    }
}

/// Does a cut that isn't planned to fail.
fn cut_planned(bytes: &mut Vec<u8>, plan: Result<(), DiskError>, len: u64)
    ensures { bytes.new.items ≡ (if is_ok plan then take len bytes.old.items else bytes.old.items) }
{
    if plan.is_ok() {
        cut_to(bytes, len);
    }
}

/// Does a read that isn't planned to fail.
fn read_planned(
    bytes: &[u8],
    plan: Result<(), DiskError>,
    at: u64,
    into: &mut [u8],
) -> Result<usize, DiskError>
    ensures bound { IfOk result (λ count. count ≤ length into.old) }
    ensures bytes { IfOk result (λ count. GivesRange (Some bytes.now) at count into.new) }
    ensures failed { IsErrOf result DiskError.Failed → plan ≡ Err DiskError.Failed }
    ensures planned { AnswersPlan plan result }
    ensures answer { plan ≡ read_answer result }
{
    match plan {
        Ok(()) => Ok(get_range(bytes, at, into)),
        Err(error) => Err(error),
    }
}

/// Copies what is to be written, and makes room for one call more in a record.
fn prepare(alloc: Global, calls: &mut Vec<MadeCall>, put: &[u8]) -> Result<Bytes, Memory>
    ensures bytes { IfOk result (λ copy. copy ≡ put.now) }
    ensures calls { calls.new.items ≡ calls.old.items }
    ensures room { OnOk result (vec_len calls.new < vec_capacity calls.new) }
{
    calls.reserve(1)?;
    Ok(Bytes::from_vec(Vec::from_slice(alloc, put)?))
}

/// Whether an answer is that the disk failed.
fn is_failed(answer: Result<(), DiskError>) -> bool
    ensures { result ≡ answered_failed answer }
{
    match answer {
        Err(DiskError::Failed) => true,
        _ => false,
    }
}

/// Whether a call was answered so.
fn any_failed(calls: &[MadeCall]) -> bool
    ensures { IsTrue result ↔ (0 < fault_count calls.now) }
{
    for made in calls {
        if is_failed(made.answer) {
            return true;
        }
    }
    false
}

impl MemDisk {
    /// A disk with these bytes, all of them safe from a crash. The calls of the listed numbers are
    /// to fail with these errors; the first call has the number 0.
    pub fn new(
        alloc: Global,
        start: Bytes,
        failing: List<(u64, DiskError)>,
    ) -> Result<MemDisk, Memory>
        ensures { IfOk result (λ d. d ≡ record { start = start; calls = []; failing = failing }) }
    {
        let bytes = Vec::from_slice(alloc, start.as_slice())?;
        Ok(MemDisk {
            alloc,
            start,
            bytes,
            calls: Vec::new(alloc),
            failing,
        })
    }

    /// The calls that were made, the first one first.
    pub fn calls(&self) -> &[MadeCall]
        ensures { result.now ≡ self.now.calls }
    {
        self.calls.as_slice()
    }

    /// The bytes that a read gives.
    pub fn bytes(&self) -> &[u8]
        ensures { result.now ≡ bytes_of self.now.start self.now.calls }
    {
        self.bytes.as_slice()
    }

    /// Whether it has failed.
    pub fn has_failed(&self) -> bool
        ensures { IsTrue result ↔ (0 < fault_count self.now.calls) }
    {
        any_failed(self.calls.as_slice())
    }

    /// An image that a crash may leave after so many calls; after all of them, where there are
    /// fewer.
    pub fn image_at(&self, moment: usize, tear: Tear) -> Result<Bytes, Memory>
        ensures { IfOk result (λ image. IsImage self.now.start (take moment self.now.calls) image) }
    {
        let count = moment.min(self.calls.len());
        let calls = self.calls.as_slice();
        let image = replay(self.alloc, self.start.as_slice(), &calls[..count], tear)?;
        Ok(Bytes::from_vec(image))
    }
}

impl Disk for MemDisk {
    ghost use Rattle.std.specs.Prelude.{◌≡◌, length, Some};
    ghost use Rattle.mw_disk.specs.Calls.{IsImage, IsImageSince, bytes_of, fault_count};
    ghost use Rattle.mw_disk.specs.Laws.{bytes_are_image, counts_now, only_now};

    ghost told = { λ d. Some (bytes_of d.start d.calls) };

    ghost may_leave = { λ d. IsImage d.start d.calls };

    ghost moment = { λ d. length d.calls };

    ghost left_since = { λ d. IsImageSince d.start d.calls };

    ghost faults = { λ d. fault_count d.calls };

    ghost told_may_stay = { λ d c is. bytes_are_image d.start d.calls c is };

    ghost counts_now = { λ d t c le now. counts_now d.start d.calls t c le now };

    ghost only_now = { λ d c left. only_now d.start d.calls c left };

    fn read(&mut self, at: u64, into: &mut [u8]) -> Result<usize, DiskError>
        ensures bound { IfOk result (λ count. count ≤ length into.old) }
        ensures bytes { IfOk result (λ count.
            GivesRange (Some (bytes_of self.old.start self.old.calls)) at count into.new) }
        ensures same { Some (bytes_of self.new.start self.new.calls)
            ≡ Some (bytes_of self.old.start self.old.calls) }
        ensures crash { Stays (IsImage self.old.start self.old.calls)
            (IsImage self.new.start self.new.calls) }
        ensures time { Elapses (length self.old.calls) (length self.new.calls)
            (IsImageSince self.old.start self.old.calls)
            (IsImageSince self.new.start self.new.calls)
            (IsImage self.new.start self.new.calls) }
        ensures cause { HasCause (fault_count self.old.calls) (fault_count self.new.calls) result }
        ensures plan { self.new.failing ≡ self.old.failing }
        ensures steady { self.old.failing ≡ [] → result ≢ Err DiskError.Failed }
        ensures planned { IsErrOf result DiskError.Memory
            ⊎ AnswersPlan (planned_answer self.old.failing (length self.old.calls)) result }
        ensures noted { IsNoted self.old.calls self.new.calls (DiskCall.Read at (length into.old))
            (read_answer result) }
    {
        if self.calls.reserve(1).is_err() {
            return Err(DiskError::Memory);
        }
        let plan = planned(self.failing.as_slice(), self.calls.len());
        let len = into.len();
        let answer = read_planned(self.bytes.as_slice(), plan, at, into);
        note(&mut self.calls, DiskCall::Read { at, len }, plan);
        answer
    }

    fn write_at(&mut self, at: u64, bytes: &[u8]) -> Result<(), DiskError>
        ensures written { OnOk result (Some (bytes_of self.new.start self.new.calls)
            ≡ option_map (written at bytes.now) (Some (bytes_of self.old.start self.old.calls))) }
        ensures tells { is_some (Some (bytes_of self.new.start self.new.calls))
            ≡ is_some (Some (bytes_of self.old.start self.old.calls)) }
        ensures crash { Follows (Torn at (length bytes.now))
            (IsImage self.old.start self.old.calls) (IsImage self.new.start self.new.calls) }
        ensures time { Elapses (length self.old.calls) (length self.new.calls)
            (IsImageSince self.old.start self.old.calls)
            (IsImageSince self.new.start self.new.calls)
            (IsImage self.new.start self.new.calls) }
        ensures cause { HasCause (fault_count self.old.calls) (fault_count self.new.calls) result }
        ensures plan { self.new.failing ≡ self.old.failing }
        ensures steady { self.old.failing ≡ [] → result ≢ Err DiskError.Failed }
        ensures planned { IsErrOf result DiskError.Memory
            ⊎ AnswersPlan (planned_answer self.old.failing (length self.old.calls)) result }
        ensures noted { IsNoted self.old.calls self.new.calls (DiskCall.Write at bytes.now) result }
    {
        let Ok(copy) = prepare(self.alloc, &mut self.calls, bytes) else {
            return Err(DiskError::Memory);
        };
        let plan = planned(self.failing.as_slice(), self.calls.len());
        let answer = write_planned(&mut self.bytes, plan, at, bytes);
        note(&mut self.calls, DiskCall::Write { at, bytes: copy }, answer);
        answer
    }

    fn cut(&mut self, len: u64) -> Result<(), DiskError>
        ensures cut { OnOk result (Some (bytes_of self.new.start self.new.calls)
            ≡ option_map (take len) (Some (bytes_of self.old.start self.old.calls))) }
        ensures tells { is_some (Some (bytes_of self.new.start self.new.calls))
            ≡ is_some (Some (bytes_of self.old.start self.old.calls)) }
        ensures crash { Follows (CutShort len)
            (IsImage self.old.start self.old.calls) (IsImage self.new.start self.new.calls) }
        ensures time { Elapses (length self.old.calls) (length self.new.calls)
            (IsImageSince self.old.start self.old.calls)
            (IsImageSince self.new.start self.new.calls)
            (IsImage self.new.start self.new.calls) }
        ensures cause { HasCause (fault_count self.old.calls) (fault_count self.new.calls) result }
        ensures plan { self.new.failing ≡ self.old.failing }
        ensures steady { self.old.failing ≡ [] → result ≢ Err DiskError.Failed }
        ensures planned { IsErrOf result DiskError.Memory
            ⊎ AnswersPlan (planned_answer self.old.failing (length self.old.calls)) result }
        ensures noted { IsNoted self.old.calls self.new.calls (DiskCall.Cut len) result }
    {
        if self.calls.reserve(1).is_err() {
            return Err(DiskError::Memory);
        }
        let plan = planned(self.failing.as_slice(), self.calls.len());
        cut_planned(&mut self.bytes, plan, len);
        note(&mut self.calls, DiskCall::Cut { len }, plan);
        plan
    }

    fn sync(&mut self) -> Result<(), DiskError>
        ensures safe { OnOk result (OnlyTold (Some (bytes_of self.new.start self.new.calls))
            (IsImage self.new.start self.new.calls)) }
        ensures same { Some (bytes_of self.new.start self.new.calls)
            ≡ Some (bytes_of self.old.start self.old.calls) }
        ensures crash { Stays (IsImage self.old.start self.old.calls)
            (IsImage self.new.start self.new.calls) }
        ensures time { Elapses (length self.old.calls) (length self.new.calls)
            (IsImageSince self.old.start self.old.calls)
            (IsImageSince self.new.start self.new.calls)
            (IsImage self.new.start self.new.calls) }
        ensures cause { HasCause (fault_count self.old.calls) (fault_count self.new.calls) result }
        ensures plan { self.new.failing ≡ self.old.failing }
        ensures steady { self.old.failing ≡ [] → result ≢ Err DiskError.Failed }
        ensures planned { IsErrOf result DiskError.Memory
            ⊎ AnswersPlan (planned_answer self.old.failing (length self.old.calls)) result }
        ensures noted { IsNoted self.old.calls self.new.calls DiskCall.Sync result }
    {
        if self.calls.reserve(1).is_err() {
            return Err(DiskError::Memory);
        }
        let plan = planned(self.failing.as_slice(), self.calls.len());
        note(&mut self.calls, DiskCall::Sync, plan);
        plan
    }
}
