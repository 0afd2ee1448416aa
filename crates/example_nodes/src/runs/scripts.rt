//! Scripts of a node, and what is written for them.

/// One end of a connection is made.
pub(crate) const OPENING: &[u8] = b"context b
domain b.p
region b.n b.p 8192 4 lwra
cq b.c 16
qp b.q b.p b.c b.c 8 8
link b.q 010001 10.0.0.1 mtu 256 psn 200 100 retry 7 rnr 7 reads 4
";

pub(crate) const OPENED: &[u8] = b"ok
ok
region 02000002 02000003
ok
qp 020001
ok
";

/// The context is stopped to a file, loaded and restored in vain while its husk stands there, released and restored. Then it
/// sends, and serves a turn. At the end its dump is gone.
pub(crate) const MOVING: &[u8] = b"store b.n 8192 cafe
stop b f
load b.n 8192 4
restore f
release b
restore f
load b.n 8192 4
go b.q
serve 1
restore f
";

pub(crate) const MOVED: &[u8] = b"ok
stopped
refused Stopped
refused NumberTaken
ok
ok
bytes cafe0000
sent 1
served 1
";

/// A write of four bytes, with its expected packet number 100, that waits for the turn.
pub(crate) const WRITE: [u8; 36] =
    *b"\x0a\x00\xff\xff\x00\x02\x00\x01\x80\x00\x00\x64\x00\x00\x00\x00\x00\x00\x20\x00\x02\x00\x00\x03\x00\x00\x00\x04\xde\xad\xbe\xef\x00\x00\x00\x00";

/// The restored end says where it is now, at `go` and in the turn.
pub(crate) const RESUME: [u8; 28] =
    *b"\x1e\x00\xff\xff\x00\x01\x00\x01\x00\x00\x00\x00\x00\x00\x00\x01\x0a\x00\x00\x02\x12\xb7\x00\x00\x00\x00\x00\x00";

/// The acknowledgement of the write.
pub(crate) const ACK: [u8; 20] =
    *b"\x11\x00\xff\xff\x00\x01\x00\x01\x00\x00\x00\x64\x1f\x00\x00\x01\x00\x00\x00\x00";
