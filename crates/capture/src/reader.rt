// Reading a capture, a record at a time.
ghost use Rattle.std.specs.Prelude.{◌≡◌, IfErr};
ghost use Rattle.capture.specs.declared.reader.CaptureFault.TheVariants.{Memory, Header};
ghost use Rattle.capture.specs.Steps.{Opens, next_record, Tells, Steps};
ghost use Rattle.capture.specs.Records.{Says, LeavesOnce};
ghost use Rattle.std.specs.Borrow.{sem};

use super::header::{HeaderFault, Order, byte_order, captured};
use std::alloc::{AllocError, Global};
use std::io::Read;
use std::{fmt, io};

// The most bytes that a record may have; a larger number is a sign of a damaged file.
pub const LONGEST: usize = 262144;

const FILE_HEADER: usize = 24;

const RECORD_HEADER: usize = 16;

// Why a capture is not read on. Records are counted from 1, and a place is a byte offset in the file.
#[derive(Debug, Clone, Copy)]
pub enum CaptureFault {
    Memory,
    // the system's error, and where the next byte would be read
    Read(io::Error, u64),
    // the number of bytes, which is too small for a file header
    ShortHeader(usize),
    Header(HeaderFault),
    // the record's header has only so many bytes
    CutHeader {
        record: u64,
        at: u64,
        got: usize,
    },
    // the record says this length
    TooLong {
        record: u64,
        at: u64,
        captured: u32,
    },
    // the record's frame has only so many bytes
    CutFrame {
        record: u64,
        at: u64,
        captured: u32,
        got: usize,
    },
}

impl fmt::Display for CaptureFault {
    fn fmt<W: fmt::Write>(&self, f: &mut fmt::Formatter<W>) -> fmt::Result {
        match self {
            CaptureFault::Memory => write!(f, "no memory"),
            CaptureFault::Read(e, at) => write!(f, "byte {at}: {e}"),
            CaptureFault::ShortHeader(got) => {
                write!(
                    f,
                    "byte 0: the file ends after {got} bytes, its header takes {FILE_HEADER}"
                )
            }
            CaptureFault::Header(fault) => write!(f, "byte 0: {fault}"),
            CaptureFault::CutHeader { record, at, got } => {
                write!(
                    f,
                    "record {record} at byte {at}: the file ends after {got} of the header's {RECORD_HEADER} bytes"
                )
            }
            CaptureFault::TooLong {
                record,
                at,
                captured,
            } => {
                write!(
                    f,
                    "record {record} at byte {at}: damaged: a length of {captured}, at most {LONGEST} is read"
                )
            }
            CaptureFault::CutFrame {
                record,
                at,
                captured,
                got,
            } => {
                write!(
                    f,
                    "record {record} at byte {at}: the file ends after {got} of the frame's {captured} bytes"
                )
            }
        }
    }
}

impl From<AllocError> for CaptureFault {
    ghost from_gives = { λ _ r. r ≡ Memory };

    fn from(_e: AllocError) -> CaptureFault {
        CaptureFault::Memory
    }
}

impl From<HeaderFault> for CaptureFault {
    ghost from_gives = { λ e r. r ≡ Header e };

    fn from(e: HeaderFault) -> CaptureFault {
        CaptureFault::Header(e)
    }
}

// Fills the buffer as far as the input goes, and says how far that is, which `read_exact` does not.
fn read_full<R: Read>(input: &mut R, buf: &mut [u8]) -> io::Result<usize> {
    let mut at = 0;
    while at < buf.len() {
        let n = input.read(&mut buf[at..])?;
        if n == 0 {
            break;
        }
        at += n;
    }
    Ok(at)
}

// A frame of a capture.
#[derive(Debug, Clone, Copy)]
pub struct Record<'a> {
    // counted from 1
    pub number: u64,
    pub frame: &'a [u8],
}

// A capture that is being read, a frame at a time, in the same memory.
#[derive(Drop)]
pub struct Capture {
    order: Order,
    buffer: Vec<u8>,
    // the records read
    records: u64,
    // where the next record begins
    at: u64,
}

impl Capture {
    // Reads the file header.
    pub fn open<R: Read>(heap: Global, input: &mut R) -> Result<Capture, CaptureFault>
        ensures { Opens result }
    {
        let mut header = [0u8; FILE_HEADER];
        let got = read_full(input, &mut header).map_err(|e| CaptureFault::Read(e, 0))?;
        if got < FILE_HEADER {
            return Err(CaptureFault::ShortHeader(got));
        }
        let order = byte_order(&header)?;
        let buffer = vec![in heap; 0u8; LONGEST]?;
        Ok(Capture {
            order,
            buffer,
            records: 0,
            at: FILE_HEADER as u64,
        })
    }

    // The number of the next record.
    fn next_number(&self) -> u64
        ensures { result ≡ next_record self.now }
    {
        self.records.saturating_add(1)
    }

    // Reads the next record's header, and says how many bytes its frame has; none where the file ends.
    fn read_header<R: Read>(&self, input: &mut R) -> Result<Option<u32>, CaptureFault>
        ensures { IfErr result (Tells self.now) }
    {
        let at = self.at;
        let mut header = [0u8; RECORD_HEADER];
        let got = read_full(input, &mut header).map_err(|e| CaptureFault::Read(e, at))?;
        if got == 0 {
            return Ok(None);
        }
        if got < RECORD_HEADER {
            return Err(CaptureFault::CutHeader {
                record: self.next_number(),
                at,
                got,
            });
        }
        Ok(Some(captured(self.order, &header)))
    }

    // Reads the next frame into the buffer, and says how long it is; none where the file ends.
    fn read_frame<R: Read>(&mut self, input: &mut R) -> Result<Option<usize>, CaptureFault>
        ensures { Steps self.old self.new result }
    {
        let record = self.next_number();
        let at = self.at;
        let Some(captured) = self.read_header(input)? else {
            return Ok(None);
        };
        let len = captured as usize;
        if len > self.buffer.len() {
            return Err(CaptureFault::TooLong {
                record,
                at,
                captured,
            });
        }
        let got = read_full(input, &mut self.buffer[..len]).map_err(|e| CaptureFault::Read(e, at))?;
        if got < len {
            return Err(CaptureFault::CutFrame {
                record,
                at,
                captured,
                got,
            });
        }
        self.records = record;
        self.at = at.saturating_add(16).saturating_add(u64::from(captured));
        Ok(Some(len))
    }

    // The next record; none where the file ends.
    pub fn next_record<R: Read>(
        &mut self,
        input: &mut R,
    ) -> Result<Option<Record<'_>>, CaptureFault>
        ensures says { Says self.old result }
        ensures* leaves { sem 𝓛 (LeavesOnce self.entry result) }
    {
        let Some(len) = self.read_frame(input)? else {
            return Ok(None);
        };
        Ok(Some(Record {
            number: self.records,
            frame: &self.buffer[..len],
        }))
    }

    // The number of the record that was read last, counted from 1; 0 before the first.
    pub fn record(&self) -> u64
        ensures { result ≡ self.now.records }
    {
        let Capture { records, .. } = self;
        *records
    }
}
