// The structs of numbers that the C functions return. Each begins with the refusal, 0 for none; beside a refusal all else is 0.
#![tactic(auto)]

#[repr(C)]
#[derive(Clone, Copy)]
pub struct HeightResult {
    pub refusal: u32,
    pub steps: u32,
    pub height: f32,
}

#[repr(C)]
#[derive(Clone, Copy)]
pub struct StripResult {
    pub refusal: u32,
    pub steps: u32,
}

#[repr(C)]
#[derive(Clone, Copy)]
pub struct CountResult {
    pub refusal: u32,
    pub count: u32,
}

#[repr(C)]
#[derive(Clone, Copy)]
pub struct RestResult {
    pub refusal: u32,
    pub level: f32,
}

#[repr(C)]
#[derive(Clone, Copy)]
pub struct ScaleResult {
    pub refusal: u32,
    pub kind: u32,
    pub number: f32,
}

#[repr(C)]
#[derive(Clone, Copy)]
pub struct AnchoredResult {
    pub refusal: u32,
    pub anchored: u32,
}

#[repr(C)]
#[derive(Clone, Copy)]
pub struct CurveResult {
    pub refusal: u32,
    pub found: u32,
    pub byte: u32,
    pub tried: u32,
}
