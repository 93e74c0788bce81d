// The files of the worked runs, byte for byte as the table of runs has them.
ghost use Rattle.std.specs.Prelude.{◌≡◌};
ghost use Rattle.worked.specs.Files.{bytes_of};

#[derive(Clone, Copy, Debug, PartialEq, Eq)]
pub enum File {
    // A process of two equal steps, merged with itself.
    Merged,
    // Action 1, and then action 1.
    Twice,
    // Action 1, a silent step, and then action 2.
    SilentMiddle,
    // Action 1, and then action 2.
    NoMiddle,
    // A silent step, and then action 2.
    SilentStart,
    // Action 2.
    OneAction,
    // Two communication lines that are not associative.
    NotAssociative,
    // A ring of one silent line.
    SilentRing,
}

impl File {
    pub fn bytes(self) -> &'static [u8]
        ensures { result.now ≡ bytes_of self }
    {
        match self {
            File::Merged => b"m,2\ne,0,1,1\nf,1,1\nt,1,v,0,0\nt,2,m,1,1\nz,2\n",
            File::Twice => b"m,0\nt,1,a,1,0\nt,2,.,1,1\nz,2\n",
            File::SilentMiddle =>
                b"m,0\nt,1,a,1,0\nt,2,a,0,0\nt,3,a,2,0\nt,4,.,2,3\nt,5,.,1,4\nz,5\n",
            File::NoMiddle => b"m,0\nt,1,a,1,0\nt,2,a,2,0\nt,3,.,1,2\nz,3\n",
            File::SilentStart => b"m,0\nt,1,a,0,0\nt,2,a,2,0\nt,3,.,1,2\nz,3\n",
            File::OneAction => b"m,0\nt,1,a,2,0\nz,1\n",
            File::NotAssociative => b"m,0\nc,1,2,3\nc,3,4,5\nt,1,d,0,0\nz,1\n",
            File::SilentRing => b"m,1\ne,0,0,0\nt,1,v,0,0\nz,1\n",
        }
    }
}
