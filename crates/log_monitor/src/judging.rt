ghost use Rattle.std.specs.Prelude.{◌≡◌, ◌≤◌, ◌<◌, ◌-◌, ◌^◌, [], length};
ghost use Rattle.csv.specs.Reading.{error_kind};
ghost use Rattle.log_monitor.specs.Log.{records_in};
ghost use Rattle.log_monitor.specs.Judgement.{IsJudged, IsRefusedAs};
ghost use Rattle.log_monitor.specs.TakenRecords.{HasTaken};

use crate::fault::LogFault;
use crate::reading::Reading;
use crate::record::is_header;
use crate::verdict::LogVerdict;
use csv::{ByteRecord, Error, ErrorKind, Reader, ReaderBuilder};
use junction_model::Junction;
use std::alloc::Global;

/// Why the reader refused the record after so many rows.
fn refused(error: &Error, rows: u32) -> LogFault
    requires { rows < 2 ^ 32 - 1 }
    ensures { IsRefusedAs (error_kind error.now) rows result }
{
    match error.kind() {
        ErrorKind::UnequalLengths { .. } => LogFault::Record(rows + 1),
        _ => LogFault::Memory,
    }
}

/// Reads all records alike, the first one too.
fn reader_of(alloc: Global, bytes: &[u8]) -> Reader<&[u8]>
    ensures { HasTaken bytes.now result [] }
{
    ReaderBuilder::new()
        .has_headers(false)
        .from_reader(alloc, bytes)
}

/// What the bytes of a log show for the junction: whether its rows are safe, or else the first
/// violation. A fault of the bytes comes before any violation. An error of the reader that is no
/// wrong number of fields is told as `Memory`.
pub fn judge(alloc: Global, junction: &Junction, bytes: &[u8]) -> Result<LogVerdict, LogFault>
    requires { length bytes.now ≤ 67108864 }
    ensures { IsJudged junction.now (records_in bytes.now) result }
{
    junction.rules();
    let mut reader = reader_of(alloc, bytes);
    let mut record = ByteRecord::new(alloc);
    match reader.read_byte_record(&mut record) {
        Ok(true) => {}
        Ok(false) => return Err(LogFault::Header),
        Err(_) => return Err(LogFault::Memory),
    }
    if !is_header(&record, junction) {
        return Err(LogFault::Header);
    }
    let mut reading = Reading::new(junction);
    for _ in 0..bytes.len() {
        match reader.read_byte_record(&mut record) {
            Ok(true) => {}
            Ok(false) => return Ok(reading.verdict()),
            Err(error) => return Err(refused(&error, reading.rows)),
        }
        match reading.take(&record) {
            Ok(()) => {}
            Err(fault) => return Err(fault),
        }
    }
    unreachable!()
}
