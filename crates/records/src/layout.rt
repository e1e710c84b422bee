// Every offset and size of a record, the limits on their count, and the largest number of four bytes: no other file names one.

// A key, and a row of a pattern.
pub const KEY_SIZE: usize = ternary::KEY_SIZE;

// A pattern: its two rows.
pub const PATTERN_SIZE: usize = KEY_SIZE + KEY_SIZE;

// Rule: value, mask, priority 2, action 2, zero 2.
pub const RULE_VALUE: usize = 0;

pub const RULE_MASK: usize = RULE_VALUE + KEY_SIZE;

pub const RULE_PRIORITY: usize = RULE_MASK + KEY_SIZE;

pub const RULE_ACTION: usize = RULE_PRIORITY + 2;

pub const RULE_SPARE: usize = RULE_ACTION + 2;

pub const RULE_SIZE: usize = RULE_SPARE + 2;

// Trace: key, zero 3.
pub const TRACE_KEY: usize = 0;

pub const TRACE_SPARE: usize = TRACE_KEY + KEY_SIZE;

pub const TRACE_SIZE: usize = TRACE_SPARE + 3;

// Slot: sequence 4, hits 4, value, mask, action 2, rule number 2, settled 1, zero 1.
pub const SLOT_SEQUENCE: usize = 0;

pub const SLOT_HITS: usize = SLOT_SEQUENCE + 4;

pub const SLOT_VALUE: usize = SLOT_HITS + 4;

pub const SLOT_MASK: usize = SLOT_VALUE + KEY_SIZE;

pub const SLOT_ACTION: usize = SLOT_MASK + KEY_SIZE;

pub const SLOT_RULE: usize = SLOT_ACTION + 2;

pub const SLOT_SETTLED: usize = SLOT_RULE + 2;

pub const SLOT_SPARE: usize = SLOT_SETTLED + 1;

pub const SLOT_SIZE: usize = SLOT_SPARE + 1;

// What follows the rows in a slot, and in a write.
pub const TAIL_SIZE: usize = SLOT_SIZE - SLOT_ACTION;

// Write: kind 1, zero 1, slot 2, sequence 4, value, mask, action 2, rule number 2, zero 2.
pub const WRITE_KIND: usize = 0;

pub const WRITE_ZERO: usize = WRITE_KIND + 1;

pub const WRITE_SLOT: usize = WRITE_ZERO + 1;

pub const WRITE_SEQUENCE: usize = WRITE_SLOT + 2;

pub const WRITE_VALUE: usize = WRITE_SEQUENCE + 4;

pub const WRITE_MASK: usize = WRITE_VALUE + KEY_SIZE;

pub const WRITE_ACTION: usize = WRITE_MASK + KEY_SIZE;

pub const WRITE_RULE: usize = WRITE_ACTION + 2;

pub const WRITE_SPARE: usize = WRITE_RULE + 2;

pub const WRITE_SIZE: usize = WRITE_SPARE + 2;

// Report: kind 1, zero 1, slot 2, sequence 4, hits 4.
pub const REPORT_KIND: usize = 0;

pub const REPORT_ZERO: usize = REPORT_KIND + 1;

pub const REPORT_SLOT: usize = REPORT_ZERO + 1;

pub const REPORT_SEQUENCE: usize = REPORT_SLOT + 2;

pub const REPORT_HITS: usize = REPORT_SEQUENCE + 4;

pub const REPORT_SIZE: usize = REPORT_HITS + 4;

// Outcome: outcome 1, zero 1, action 2, rule 2, slot 2, evicted rule 2, zero 2.
pub const OUTCOME_KIND: usize = 0;

pub const OUTCOME_ACTION: usize = OUTCOME_KIND + 2;

pub const OUTCOME_RULE: usize = OUTCOME_ACTION + 2;

pub const OUTCOME_SLOT: usize = OUTCOME_RULE + 2;

pub const OUTCOME_EVICTED: usize = OUTCOME_SLOT + 2;

pub const OUTCOME_SIZE: usize = OUTCOME_EVICTED + 4;

// The kind byte of every write, and of every report.
pub const IS_WRITE: u8 = 1;

pub const IS_REPORT: u8 = 2;

// A policy's rules, a trace call's records, and an end's slots are at most so many.
pub const MOST_RULES: usize = 1024;

pub const MOST_PACKETS: usize = 4096;

pub const MOST_SLOTS: usize = 256;

// The last sequence.
pub const LAST_SEQUENCE: u32 = 4294967295;
