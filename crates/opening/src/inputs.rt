// What openings read beside the image, lent: parameters that travel together.

// What a request's opening reads, with ROM's verdict, which an update boot's reads too.
#[derive(Clone, Copy)]
pub struct RequestInputs<'a> {
    pub code: u32,
    pub bytes: &'a [u8],
    pub caller: u32,
    pub handoff: &'a [u8],
    pub verdict: bool,
    pub fresh: &'a [u8],
}

// What a boot's opening reads.
#[derive(Clone, Copy)]
pub struct BootInputs<'a> {
    pub runtime: &'a [u8],
    pub manifest: &'a [u8],
    pub secret: &'a [u8],
}
