//! The options of the commands, and the meanings of the words that they list.

use crate::options::{Absent, OptionRow, Values};
use fq_model::config::{Estimator, Policy};
use fq_model::limits::{
    GREATEST_BURST, GREATEST_COST, GREATEST_RATE, GREATEST_SLOT, MOST_ROWS, MOST_STATUSES,
    TEXT_TENANTS, TEXT_WORKERS,
};
use program_model::command::{GenPrint, HistoryPrint, ScriptPrint};

/// The policies, in the order of the words for them.
pub const POLICIES: [Policy; 5] = [
    Policy::Wfq,
    Policy::Wf2q,
    Policy::Msf2q,
    Policy::TwoDfq,
    Policy::TwoDfqPlus,
];

/// The estimators, in the order of the words for them.
pub const ESTIMATORS: [Estimator; 3] = [
    Estimator::Declared,
    Estimator::Recent,
    Estimator::Pessimistic,
];

/// The outputs of `script`, in the order of the words for them.
pub const SCRIPT_PRINTS: [ScriptPrint; 3] = [
    ScriptPrint::Replies,
    ScriptPrint::Journal,
    ScriptPrint::Both,
];

/// The outputs of `run` and `live`, in the order of the words for them.
pub const HISTORY_PRINTS: [HistoryPrint; 4] = [
    HistoryPrint::Journal,
    HistoryPrint::Report,
    HistoryPrint::Both,
    HistoryPrint::Summary,
];

/// The outputs of `gen`, in the order of the words for them.
pub const GEN_PRINTS: [GenPrint; 2] = [GenPrint::Trace, GenPrint::Summary];

/// The options of `script`.
pub const SCRIPT_OPTIONS: [OptionRow; 1] = [OptionRow {
    name: "--print",
    values: Values::Among(&["replies", "journal", "both"]),
    absent: Absent::Default("replies"),
}];

/// The options of `run`.
pub const TRACE_OPTIONS: [OptionRow; 7] = [
    WORKERS,
    POLICY,
    ESTIMATE,
    INITIAL,
    REFRESH,
    SLOT,
    HISTORY_PRINT,
];

/// The options of `live`: those of `run`, and how many times the status is read.
pub const LIVE_OPTIONS: [OptionRow; 8] = [
    WORKERS,
    POLICY,
    ESTIMATE,
    INITIAL,
    REFRESH,
    SLOT,
    HISTORY_PRINT,
    OptionRow {
        name: "--watch",
        values: Values::Within {
            low: 0,
            high: MOST_STATUSES as u64,
        },
        absent: Absent::Default("0"),
    },
];

/// The options of `gen`.
pub const GEN_OPTIONS: [OptionRow; 4] = [
    OptionRow {
        name: "--seed",
        values: Values::Within {
            low: 0,
            high: u64::MAX,
        },
        absent: Absent::Required,
    },
    OptionRow {
        name: "--tenants",
        values: Values::Within {
            low: 1,
            high: TEXT_TENANTS as u64,
        },
        absent: Absent::Required,
    },
    OptionRow {
        name: "--requests",
        values: Values::Within {
            low: 0,
            high: MOST_ROWS as u64,
        },
        absent: Absent::Required,
    },
    OptionRow {
        name: "--print",
        values: Values::Among(&["trace", "summary"]),
        absent: Absent::Default("trace"),
    },
];

/// The option of `check`.
pub const CHECK_OPTIONS: [OptionRow; 1] = [OptionRow {
    name: "--explain",
    values: Values::Within {
        low: 0,
        high: u32::MAX as u64,
    },
    absent: Absent::Nothing,
}];

/// The options of `lead`: whose lead it is, and over whom.
pub const LEAD_OPTIONS: [OptionRow; 2] = [
    OptionRow {
        name: "--of",
        values: Values::Named,
        absent: Absent::Required,
    },
    OptionRow {
        name: "--over",
        values: Values::Named,
        absent: Absent::Required,
    },
];

/// The options of `shape`. The rate is in tokens that a tenant of weight 1 gains in 1000 microseconds, the burst in
/// tokens.
pub const SHAPE_OPTIONS: [OptionRow; 2] = [
    OptionRow {
        name: "--rate",
        values: Values::Within {
            low: 1,
            high: GREATEST_RATE,
        },
        absent: Absent::Required,
    },
    OptionRow {
        name: "--burst",
        values: Values::Within {
            low: 1,
            high: GREATEST_BURST,
        },
        absent: Absent::Required,
    },
];

/// The options of `compare`, as in `run`.
pub const COMPARE_OPTIONS: [OptionRow; 4] = [WORKERS, INITIAL, REFRESH, SLOT];

// Options that several commands share.

// How many workers there are.
const WORKERS: OptionRow = OptionRow {
    name: "--workers",
    values: Values::Within {
        low: 1,
        high: TEXT_WORKERS as u64,
    },
    absent: Absent::Default("4"),
};

const POLICY: OptionRow = OptionRow {
    name: "--policy",
    values: Values::Among(&["wfq", "wf2q", "msf2q", "2dfq", "2dfq+"]),
    absent: Absent::Default("2dfq"),
};

const ESTIMATE: OptionRow = OptionRow {
    name: "--estimate",
    values: Values::Among(&["declared", "recent", "pessimistic"]),
    absent: Absent::Default("pessimistic"),
};

// The estimate before any completion, in microseconds.
const INITIAL: OptionRow = OptionRow {
    name: "--initial",
    values: Values::Within {
        low: 1,
        high: GREATEST_COST,
    },
    absent: Absent::Default("1000"),
};

// In microseconds; 0 asks for no reports.
const REFRESH: OptionRow = OptionRow {
    name: "--refresh",
    values: Values::Within {
        low: 0,
        high: GREATEST_COST,
    },
    absent: Absent::Default("10000"),
};

// In microseconds; 0 asks for the automatic slot.
const SLOT: OptionRow = OptionRow {
    name: "--slot",
    values: Values::Within {
        low: 0,
        high: GREATEST_SLOT,
    },
    absent: Absent::Default("0"),
};

const HISTORY_PRINT: OptionRow = OptionRow {
    name: "--print",
    values: Values::Among(&["journal", "report", "both", "summary"]),
    absent: Absent::Default("both"),
};
