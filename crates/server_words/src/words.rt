//! What the words of the command line ask for.

use thiserror::Error;
use zbx_types::Text;

/// What the program does.
#[derive(Clone, Copy, Debug, PartialEq, Eq)]
pub enum Mode {
    /// It takes its events from a script.
    Feed,
    /// It takes its events from connections.
    Serve,
    /// It makes its configuration and its events itself, from a number.
    Workload,
    /// It runs a script for each message of an outbox.
    Alerts,
    /// It copies a journal into a new file, as a state without entries.
    Checkpoint,
}

/// Which call takes the words: the server's run, that of alerts, or that of a copy. Each has modes of its own.
#[derive(Clone, Copy, Debug, PartialEq, Eq)]
pub enum Call {
    /// The server's run: Feed, Serve and Workload.
    Run,
    /// That of alerts: Alerts.
    Alerting,
    /// That of a copy: Checkpoint.
    Copying,
}

/// What the words of the command line ask for. Where an option isn't named it has its default.
#[derive(Drop)]
pub struct Plan {
    /// What the program does.
    pub mode: Mode,
    /// The path of the configuration document. Feed and Serve have one.
    pub config: Option<Text>,
    /// The path of the script with the events. Feed has one.
    pub script: Option<Text>,
    /// The address and port to listen at. Serve has one.
    pub listen: Option<Text>,
    /// The path of the journal. Without one the journal is in memory, and is gone with the run. Checkpoint has one, which
    /// it copies.
    pub journal: Option<Text>,
    /// The path of the outbox, or `-` for standard output, which is its default.
    pub outbox: Text,
    /// How many history syncers work at once: 0 to 16; 4 is the default. At 0 one thread does all.
    pub syncers: u32,
    /// How many events are taken at most: 1 to 1,000,000,000, which is the default.
    pub turns: u64,
    /// How many entries the journal has at most: 1 to 4,000,000, which is the default.
    pub max_entries: u64,
    /// The number that a workload is drawn from; 1 is the default.
    pub number: u64,
    /// How many values a workload has: 1 to 1,000,000; 1,000 is the default.
    pub values: u64,
    /// The path of the marks of alerts. Alerts has one.
    pub progress: Option<Text>,
    /// The program that is run for each message. Alerts has one.
    pub command: Option<Text>,
    /// How many tries a message has at most: 1 to 100; 3 is the default.
    pub attempts: u32,
    /// The path of the document of media, which says how the messages of each recipient are tried.
    pub media: Option<Text>,
    /// The path of the file that a journal is copied into. Checkpoint has one.
    pub into: Option<Text>,
    /// How many alert sessions work at once: 1 to 16; 1 is the default.
    pub sessions: u32,
}

/// Why there is no plan.
#[derive(Clone, Copy, Debug, PartialEq, Eq, Error)]
pub enum PlanError {
    /// The words aren't those of the command.
    #[error("usage: --mode feed --config PATH --script PATH, --mode serve --config PATH --listen ADDRESS:PORT, --mode workload, --mode alerts --outbox PATH --progress PATH --command PROGRAM, or --mode checkpoint --journal PATH --into PATH")]
    Usage,
    /// No memory was to be had.
    #[error("out of memory")]
    OutOfMemory,
}
