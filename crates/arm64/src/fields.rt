// The lists of functions, epilogues and codes: how many numbers a record has, and where each stands behind the first.
pub const FUNCTION_STRIDE: usize = 6;

pub const LENGTH: usize = 1;

pub const PROLOGUE_AT: usize = 2;

pub const PROLOGUE: usize = 3;

pub const EPILOGUES_AT: usize = 4;

pub const EPILOGUES: usize = 5;

pub const EPILOGUE_STRIDE: usize = 3;

pub const CODES_AT: usize = 1;

pub const CODES: usize = 2;

pub const CODE_STRIDE: usize = 3;

pub const REGISTER: usize = 1;

pub const OFFSET: usize = 2;
