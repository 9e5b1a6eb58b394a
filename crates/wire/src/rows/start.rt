//! The preface and the first frame.

pub const ROWS: &str = "\
the server's first frame is SETTINGS
  must RFC 9113, 3.4: \"SETTINGS .. MUST be the first frame the server sends\"
  bare
  preface
  settings 0 00
  want first

SETTINGS are acknowledged
  must RFC 9113, 3.4: \"SETTINGS .. as part of the connection preface MUST be acknowledged\"
  bare
  preface
  settings 0 00
  want acks 1

preface in one-byte writes
  must RFC 9113, 3.4: \"SETTINGS .. as part of the connection preface MUST be acknowledged\"
  bare
  drip 505249202a20485454502f322e300d0a0d0a534d0d0a0d0a 000000040000000000
  want first and acks 1

preface, SETTINGS and a request at once
  must RFC 9113, 6.9: frames but DATA \"MUST be accepted and processed\", 3.4: sent at once
  bare
  raw 505249202a20485454502f322e300d0a0d0a534d0d0a0d0a 000000040000000000
  request 1
  want answered 1
  want reset 1 7

preface that is wrong in its first byte
  must RFC 9113, 3.4: \"MUST treat an invalid connection preface as a connection error\"
  bare
  raw 585249202a20485454502f322e300d0a0d0a534d0d0a0d0a 000000040000000000
  want connection 1 2
  want text

preface that is wrong in its middle
  must RFC 9113, 3.4: \"MUST treat an invalid connection preface as a connection error\"
  bare
  raw 505249202a20485454502f322e310d0a0d0a534d0d0a0d0a 000000040000000000
  want connection 1 2
  want text

preface that is wrong in its last byte
  must RFC 9113, 3.4: \"MUST treat an invalid connection preface as a connection error\"
  bare
  raw 505249202a20485454502f322e300d0a0d0a534d0d0a0d0d 000000040000000000
  want connection 1 2
  want text

request of HTTP/1.1 in place of the preface
  must RFC 9113, 3.4: \"MUST treat an invalid connection preface as a connection error\"
  bare
  raw 474554202f20485454502f312e310d0a486f73743a20610d0a0d0a
  want connection 1 2
  want text

preface twice
  must RFC 9113, 3.4: \"MUST treat an invalid connection preface as a connection error\"
  bare
  needs frame at most 5263944
  preface
  preface
  settings 0 00
  want connection 1 2 6

PING as the first frame
  must RFC 9113, 3.4: \"MUST treat an invalid connection preface as a connection error\"
  bare
  preface
  ping 0 00 0102030405060708
  want connection 1 2

HEADERS as the first frame
  must RFC 9113, 3.4: \"MUST treat an invalid connection preface as a connection error\"
  bare
  preface
  request 1
  want connection 1 2

WINDOW_UPDATE as the first frame
  must RFC 9113, 3.4: \"MUST treat an invalid connection preface as a connection error\"
  bare
  preface
  window 0 00 00000001
  want connection 1 2

a frame of an unknown type as the first frame
  should RFC 9113, 3.4, and 4.1, which has \"MUST ignore and discard frames of unknown types\"
  bare
  preface
  type22 0 00 01
  settings 0 00
  sync
  want connection 1 2
  want ignored

SETTINGS on a stream as the first frame
  must RFC 9113, 6.5: \"MUST respond with a connection error .. of type PROTOCOL_ERROR\"
  bare
  preface
  settings 1 00
  want connection 1 2

SETTINGS of five bytes as the first frame
  must RFC 9113, 6.5: \"MUST be treated as a connection error .. of type FRAME_SIZE_ERROR\"
  bare
  preface
  settings 0 00 0003000000
  want connection 1 2 6

SETTINGS with ACK as the first frame
  ours accepted and ignored
  bare
  preface
  settings 0 01
  settings 0 00
  sync
  want ignored

an error of the connection is told by GOAWAY
  should RFC 9113, 5.4.1: \"SHOULD first send a GOAWAY frame\"
  ping 0 00 01020304050607
  want goaway 1 2 6

after GOAWAY with an error the connection ends
  should RFC 9113, 5.4.1: \"MUST close the TCP connection\" (when isn't said)
  bare
  preface
  ping 0 00 0102030405060708
  want closed
";
