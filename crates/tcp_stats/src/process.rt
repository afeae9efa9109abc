//! What the system says of the process, told by the names that Prometheus' client libraries give it; the metrics' listener answers with it
//! after the proxy's own metrics.

ghost use Rattle.std.specs.Prelude.{◌≡◌, ◌++◌, OnOk};
ghost use Rattle.std.specs.List.{flat_map};
ghost use Rattle.tcp_stats.specs.Process as spec;
ghost use Rattle.tcp_stats.specs.Process.{process_reading_text, process_row, process_text, process_value, seconds_text, told_if, told_text};

use crate::metrics::push_head;
use base_lines::push_decimal;
use base_sequence::NoMemory;

/// What the system says of the process. None of each that it doesn't say.
#[derive(Clone, Copy, Debug)]
pub struct ProcessFacts {
    /// The processor time that it has used, in ms.
    pub cpu_ms: Option<u64>,
    /// The descriptors that it has open.
    pub open_descriptors: Option<u64>,
    /// The descriptors that it may have.
    pub most_descriptors: Option<u64>,
    /// The memory that it has addresses for.
    pub virtual_bytes: Option<u64>,
    /// The memory that it has in use.
    pub resident_bytes: Option<u64>,
    /// When it began, in ms since 1970.
    pub started_ms: Option<u64>,
}

/// What is told of the process.
#[derive(Clone, Copy)]
pub(crate) enum ProcessReading {
    /// The processor time.
    Cpu,
    /// The open descriptors.
    OpenFds,
    /// The most of them.
    MaxFds,
    /// The memory that has addresses.
    Virtual,
    /// The memory in use.
    Resident,
    /// The start.
    Start,
}

impl ProcessReading {
    const ALL: [ProcessReading; 6] = [
        ProcessReading::Cpu,
        ProcessReading::OpenFds,
        ProcessReading::MaxFds,
        ProcessReading::Virtual,
        ProcessReading::Resident,
        ProcessReading::Start,
    ];

    /// Its metric's name, what is said of it, and its type, each in the words of the client libraries.
    fn names(self) -> (&'static str, &'static str, &'static str)
        ensures metric { result.0.now ≡ (process_row self).metric }
        ensures help { result.1.now ≡ (process_row self).help }
        ensures kind { result.2.now ≡ (process_row self).kind }
    {
        match self {
            ProcessReading::Cpu => (
                "process_cpu_seconds_total",
                "Total user and system CPU time spent in seconds.",
                "counter",
            ),
            ProcessReading::OpenFds => (
                "process_open_fds",
                "Number of open file descriptors.",
                "gauge",
            ),
            ProcessReading::MaxFds => (
                "process_max_fds",
                "Maximum number of open file descriptors.",
                "gauge",
            ),
            ProcessReading::Virtual => (
                "process_virtual_memory_bytes",
                "Virtual memory size in bytes.",
                "gauge",
            ),
            ProcessReading::Resident => (
                "process_resident_memory_bytes",
                "Resident memory size in bytes.",
                "gauge",
            ),
            ProcessReading::Start => (
                "process_start_time_seconds",
                "Start time of the process since unix epoch in seconds.",
                "gauge",
            ),
        }
    }

    /// Its value, if the system says it.
    fn value(self, facts: &ProcessFacts) -> Option<u64>
        ensures { result ≡ process_value facts.now self }
    {
        match self {
            ProcessReading::Cpu => facts.cpu_ms,
            ProcessReading::OpenFds => facts.open_descriptors,
            ProcessReading::MaxFds => facts.most_descriptors,
            ProcessReading::Virtual => facts.virtual_bytes,
            ProcessReading::Resident => facts.resident_bytes,
            ProcessReading::Start => facts.started_ms,
        }
    }
}

/// Appends ms as seconds, with three digits after the point.
#[tactic(auto, unfolding(crate::specs::Process::seconds_text))]
fn push_seconds(text: &mut Vec<u8>, ms: u64) -> Result<(), NoMemory>
    ensures { OnOk result (text.new.items ≡ text.old.items ++ seconds_text ms) }
{
    push_decimal(text, ms / 1_000)?;
    text.extend_from_slice(b".")?;
    push_decimal(text, ms / 100 % 10)?;
    push_decimal(text, ms / 10 % 10)?;
    push_decimal(text, ms % 10)?;
    Ok(())
}

/// Appends a value: a time in seconds, and all else as it is.
fn push_value(text: &mut Vec<u8>, reading: ProcessReading, value: u64) -> Result<(), NoMemory>
    ensures { OnOk result (text.new.items ≡ text.old.items ++ spec.value_text reading value) }
{
    match reading {
        ProcessReading::Cpu | ProcessReading::Start => push_seconds(text, value),
        _ => push_decimal(text, value),
    }
}

/// Appends a value's metric: its head and its sample.
#[tactic(auto, unfolding(crate::specs::Process::told_text))]
fn push_told(text: &mut Vec<u8>, reading: ProcessReading, value: u64) -> Result<(), NoMemory>
    ensures { OnOk result (text.new.items ≡ text.old.items ++ told_text reading value) }
{
    let (name, help, kind) = reading.names();
    push_head(text, name.as_bytes(), help.as_bytes(), kind.as_bytes())?;
    text.extend_from_slice(name.as_bytes())?;
    text.extend_from_slice(b" ")?;
    push_value(text, reading, value)?;
    text.extend_from_slice(b"\n")?;
    Ok(())
}

/// Appends a metric, if it has a value.
fn push_if(text: &mut Vec<u8>, reading: ProcessReading, value: Option<u64>) -> Result<(), NoMemory>
    ensures { OnOk result (text.new.items ≡ text.old.items ++ told_if reading value) }
{
    match value {
        Some(value) => push_told(text, reading, value),
        None => Ok(()),
    }
}

/// Appends some of the metrics.
fn push_each(
    text: &mut Vec<u8>,
    readings: &[ProcessReading],
    facts: &ProcessFacts,
) -> Result<(), NoMemory>
    ensures { OnOk result (text.new.items ≡ text.old.items ++ flat_map (process_reading_text facts.now) readings.now) }
{
    for reading in readings {
        push_if(text, *reading, reading.value(facts))?;
    }
    Ok(())
}

/// Appends the metrics of the process, in Prometheus' text format. What the system doesn't say is left out.
pub fn push_process(text: &mut Vec<u8>, facts: &ProcessFacts) -> Result<(), NoMemory>
    ensures { OnOk result (text.new.items ≡ text.old.items ++ process_text facts.now) }
{
    push_each(text, &ProcessReading::ALL, facts)
}
