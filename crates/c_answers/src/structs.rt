// The structs that C reads. In each the refusal's number comes first, 0 where the call is accepted, then its place; on a refusal the rest is 0.

// A write, a report.
#[repr(C)]
#[derive(Clone, Copy)]
pub struct WgDone {
    pub refusal: u32,
    pub place: usize,
}

// How many rules, or how many numbers were written.
#[repr(C)]
#[derive(Clone, Copy)]
pub struct WgCount {
    pub refusal: u32,
    pub place: usize,
    pub count: usize,
}

// The best rule of a key: `found` is 1, or 0 where there is none.
#[repr(C)]
#[derive(Clone, Copy)]
pub struct WgBestAnswer {
    pub refusal: u32,
    pub place: usize,
    pub found: u32,
    pub rule: u16,
    pub action: u16,
}

// Where a rule's record lies in the policy.
#[repr(C)]
#[derive(Clone, Copy)]
pub struct WgPart {
    pub refusal: u32,
    pub place: usize,
    pub offset: usize,
    pub length: usize,
}

// The fixed bits of an isolated rule, and the wildcard bits left.
#[repr(C)]
#[derive(Clone, Copy)]
pub struct WgIsolated {
    pub refusal: u32,
    pub place: usize,
    pub fixed: u32,
    pub wildcards: u32,
}

// A lookup: `hit` is 1, or 0 on a miss.
#[repr(C)]
#[derive(Clone, Copy)]
pub struct WgFound {
    pub refusal: u32,
    pub place: usize,
    pub hit: u32,
    pub slot: u16,
    pub rule: u16,
    pub action: u16,
}

// The outcome of a miss.
#[repr(C)]
#[derive(Clone, Copy)]
pub struct WgOutcome {
    pub refusal: u32,
    pub place: usize,
    pub outcome: u32,
    pub action: u16,
    pub rule: u16,
    pub slot: u16,
    pub evicted: u16,
}

// Nothing is shown.
pub const FROM_NOTHING: u32 = 0;
// A slot of the table is shown.
pub const FROM_TABLE: u32 = 1;
// A rule of the policy is shown.
pub const FROM_POLICY: u32 = 2;

// Which record decides, and where it lies in the buffer that holds it.
#[repr(C)]
#[derive(Clone, Copy)]
pub struct WgShown {
    pub refusal: u32,
    pub place: usize,
    pub source: u32,
    pub number: usize,
    pub offset: usize,
    pub length: usize,
}
