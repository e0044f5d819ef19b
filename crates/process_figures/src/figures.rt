//! The figures of a process.
ghost use Rattle.std.specs.Prelude.{◌≡◌};
ghost use Rattle.process_figures.specs.Figures.{boot_time, figures_of, resident_bytes, run_time, start_time};

use crate::limits::max_open_files;
use crate::lines::behind_named;
use crate::numbers::read_number;
use crate::stat::stat_number;

/// A clock tick, in milliseconds: Linux shows times to programs in hundredths of a second (USER_HZ, include/asm-generic/param.h).
const TICK: u64 = 10;

/// A page of memory on x86-64, in bytes (PAGE_SIZE, arch/x86/include/asm/page_types.h).
const PAGE_BYTES: u64 = 4_096;

/// The texts of files of `/proc`. A file that couldn't be read has an empty one.
#[derive(Clone, Copy, Debug, PartialEq, Eq)]
pub struct ProcFiles<'a> {
    /// `/proc/PID/stat`.
    pub stat: &'a [u8],
    /// `/proc/stat`.
    pub system: &'a [u8],
    /// `/proc/PID/limits`.
    pub limits: &'a [u8],
}

/// The figures of a process. A figure is `None` if no file has it.
#[derive(Clone, Copy, Debug, PartialEq, Eq, Drop)]
pub struct ProcessFigures {
    /// When it started, in milliseconds since the beginning of 1970, by hundredths of a second.
    pub started: Option<u64>,
    /// How long it ran on processors, in user mode and in the kernel, in milliseconds, by hundredths of a second.
    pub ran: Option<u64>,
    /// How much memory is resident, in bytes.
    pub resident: Option<u64>,
    /// How many files it has open.
    pub open_files: Option<u64>,
    /// How many files it may have open, the soft limit. 2^64 - 1 if there is no limit.
    pub max_open_files: Option<u64>,
}

impl ProcessFigures {
    /// Returns the figures that files have. A figure is `None` if its file has no such line or field, or no number of at most 64 bits
    /// there. A sum or a product that would exceed 2^64 - 1 is 2^64 - 1.
    pub fn of(files: &ProcFiles<'_>, open_files: Option<u64>) -> ProcessFigures
        ensures { result ≡ figures_of files.now open_files }
    {
        ProcessFigures {
            started: start_time(files.stat, files.system),
            ran: run_time(files.stat),
            resident: resident_bytes(files.stat),
            open_files,
            max_open_files: max_open_files(files.limits),
        }
    }
}

/// Returns how long a process ran on processors, in milliseconds.
fn run_time(stat: &[u8]) -> Option<u64>
    ensures { result ≡ run_time stat.now }
{
    let utime = stat_number(stat, 14)?;
    let stime = stat_number(stat, 15)?;
    Some(utime.saturating_add(stime).saturating_mul(TICK))
}

/// Returns when the system booted, in seconds since the beginning of 1970.
fn boot_time(system: &[u8]) -> Option<u64>
    ensures { result ≡ boot_time system.now }
{
    read_number(behind_named(b"btime ", system)?)
}

/// Returns when a process started, in milliseconds since the beginning of 1970.
fn start_time(stat: &[u8], system: &[u8]) -> Option<u64>
    ensures { result ≡ start_time stat.now system.now }
{
    let boot = boot_time(system)?;
    let after_boot = stat_number(stat, 22)?;
    Some(
        boot.saturating_mul(1_000)
            .saturating_add(after_boot.saturating_mul(TICK)),
    )
}

/// Returns how much memory of a process is resident, in bytes.
fn resident_bytes(stat: &[u8]) -> Option<u64>
    ensures { result ≡ resident_bytes stat.now }
{
    Some(stat_number(stat, 24)?.saturating_mul(PAGE_BYTES))
}
