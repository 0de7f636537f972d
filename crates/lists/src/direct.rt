// Where the numbers of a record of direct codes stand behind its symbol, and those of a code behind its offset (document 01).
pub const LENGTH: usize = 1;

pub const END: usize = 2;

pub const CODES_AT: usize = 3;

pub const CODES: usize = 4;

pub const CODE_KIND: usize = 1;

pub const CODE_REGISTER: usize = 2;

pub const CODE_VECTOR: usize = 3;

pub const CODE_VALUE: usize = 4;
