use h2_streams::numbered::Numbered;

/// How far the first message of a request is: its first five bytes, and how many bytes there are.
#[derive(Clone, Copy, Debug)]
pub struct Asked {
    pub id: u32,
    pub word: u64,
    pub count: u32,
}

impl Numbered for Asked {
    ghost number = { λ a. a.id };

    fn number(&self) -> u32 {
        self.id
    }
}
