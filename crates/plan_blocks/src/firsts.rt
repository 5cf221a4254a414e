// What comes before a major stage: parts, state words and SRAM words.
#[derive(Drop)]
pub struct Firsts {
    pub parts: usize,
    pub state: u32,
    pub sram: u32,
}
