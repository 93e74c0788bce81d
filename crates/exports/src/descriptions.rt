// The descriptions by which a caller names models. What belongs to tables and lines stands in rows that are lent beside them.

// A part of a lent row. What passes the row's end is left out.
#[repr(C)]
#[derive(Clone, Copy, Debug, PartialEq, Eq)]
pub struct Span {
    pub from: usize,
    pub to: usize,
}

// A set that is blocked, and then one that is hidden.
#[repr(C)]
#[derive(Clone, Copy, Debug, PartialEq, Eq)]
pub struct Sets {
    pub blocked: u64,
    pub hidden: u64,
}

// Kept: flags and a number for the shape, since descriptions cross to C.
// A counter, or a table over parts of the lent row ends and steps; and the sets over it.
#[repr(C)]
#[derive(Clone, Copy, Debug, PartialEq, Eq)]
pub struct Leaf {
    pub is_table: bool,
    pub take: u8,
    pub give: u8,
    pub cap: usize,
    pub ends: Span,
    pub steps: Span,
    pub terms: usize,
    pub count: usize,
    pub start: usize,
    pub sets: Sets,
}

// A communication by ports, or by a part of the lent lines; and the sets over the merge.
#[repr(C)]
#[derive(Clone, Copy, Debug, PartialEq, Eq)]
pub struct Joint {
    pub by_lines: bool,
    pub lines: Span,
    pub sets: Sets,
}

// Shape 0 is the first leaf; 1 the first merged with the second under the inner joint; 2 that merged with the third under the outer
// joint; any other the third merged with that.
#[repr(C)]
#[derive(Clone, Copy, Debug, PartialEq, Eq)]
pub struct Description {
    pub shape: u8,
    pub first: Leaf,
    pub second: Leaf,
    pub third: Leaf,
    pub inner: Joint,
    pub outer: Joint,
}
