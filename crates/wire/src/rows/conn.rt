//! Frames by themselves: unknown types and flags, reserved bits, padding, stream ids.

pub const ROWS: &str = "\
unknown type on the connection
  must RFC 9113, 4.1: \"MUST ignore and discard frames of unknown types\"
  control ignored
  !type22 0 00 0102030405060708
  sync
  want ignored

unknown type on an open stream
  must RFC 9113, 4.1: \"MUST ignore and discard frames of unknown types\"
  control answered 1
  headers 1 04 call:EmptyCall
  !type250 1 ff 010203
  data 1 01 0000000000
  want answered 1

unknown type on an idle stream
  must RFC 9113, 4.1: \"MUST ignore and discard frames of unknown types\"
  control ignored
  !type22 7 00 010203
  sync
  want ignored

unknown type with every flag and no payload
  must RFC 9113, 4.1: \"MUST ignore and discard frames of unknown types\"
  control ignored
  !type255 0 ff
  sync
  want ignored

PRIORITY_UPDATE
  must RFC 9113, 4.1: \"MUST ignore and discard frames of unknown types\" (one of RFC 9218)
  control ignored
  !type16 0 00 00000001 753d31
  sync
  want ignored

unknown flags on PING
  must RFC 9113, 4.1: \"Unused flags MUST be ignored on receipt\"
  control ping 0102030405060708
  ~ping 0 00 0102030405060708
  !ping 0 fe 0102030405060708
  want ping 0102030405060708

unknown flags on HEADERS and DATA
  must RFC 9113, 4.1: \"Unused flags MUST be ignored on receipt\"
  control answered 1
  ~headers 1 04 call:EmptyCall
  !headers 1 d6 call:EmptyCall
  ~data 1 01 0000000000
  !data 1 f7 0000000000
  want answered 1

unknown flags on SETTINGS
  must RFC 9113, 4.1: \"Unused flags MUST be ignored on receipt\"
  control acks 2
  ~settings 0 00
  !settings 0 fe
  want acks 2

unknown flags on WINDOW_UPDATE and RST_STREAM
  must RFC 9113, 4.1: \"Unused flags MUST be ignored on receipt\"
  control ignored
  headers 1 04 call:FullDuplexCall
  sync
  ~window 1 00 00000001
  !window 1 ff 00000001
  ~reset 1 00 00000008
  !reset 1 ff 00000008
  sync
  want ignored

reserved bit of the stream on HEADERS and DATA
  must RFC 9113, 4.1: the reserved bit \"MUST be ignored when receiving\"
  control answered 1
  ~headers 1 04 call:EmptyCall
  !headers 2147483649 04 call:EmptyCall
  ~data 1 01 0000000000
  !data 2147483649 01 0000000000
  want answered 1

reserved bit of the stream on PING
  must RFC 9113, 4.1: the reserved bit \"MUST be ignored when receiving\"
  control ping 0102030405060708
  ~ping 0 00 0102030405060708
  !ping 2147483648 00 0102030405060708
  want ping 0102030405060708

reserved bit of the stream on SETTINGS
  must RFC 9113, 4.1: the reserved bit \"MUST be ignored when receiving\"
  control acks 2
  ~settings 0 00
  !settings 2147483648 00
  want acks 2

padding on HEADERS and DATA
  should RFC 9113, 6.1, 6.2: the format; padding has \"no application semantic value\"
  control answered 1
  ~headers 1 04 call:EmptyCall
  !headers 1 0c 05 call:EmptyCall 00*5
  ~data 1 01 0000000000
  !data 1 09 ff 0000000000 00*255
  want answered 1

padding of no bytes
  should RFC 9113, 6.1, 6.2: the format; a \"Pad Length field with a value of zero\"
  control answered 1
  ~headers 1 04 call:EmptyCall
  !headers 1 0c 00 call:EmptyCall
  ~data 1 01 0000000000
  !data 1 09 00 0000000000
  want answered 1

DATA of nothing but padding
  should RFC 9113, 6.1: the format; padding has \"no application semantic value\"
  control answered 1
  headers 1 04 call:EmptyCall
  !data 1 08 04 00*4
  data 1 01 0000000000
  want answered 1

padding that isn't zero
  should RFC 9113, 6.1: \"not obligated to verify padding but MAY treat\" it as an error
  control answered 1
  headers 1 04 call:EmptyCall
  data 1 09 03 0000000000 !010203 ~000000
  want answered 1
  want stream 1 1 2

padding and priority on HEADERS
  must RFC 9113, 6.9: frames but DATA \"MUST be accepted and processed\"
  control answered 1
  ~headers 1 04 call:EmptyCall
  !headers 1 2c 03 0000000010 call:EmptyCall 00*3
  data 1 01 0000000000
  want answered 1

DATA with as much padding as payload
  must RFC 9113, 6.1: \"the recipient MUST treat this as a connection error\"
  control live 1
  headers 1 04 call:EmptyCall
  quiet
  !data 1 08 06 0000000000
  want connection 1 2 6

DATA with far more padding than payload
  must RFC 9113, 6.1: \"the recipient MUST treat this as a connection error\"
  control live 1
  headers 1 04 call:EmptyCall
  quiet
  !data 1 08 ff 00
  want connection 1 2 6

HEADERS with more padding than payload
  must RFC 9113, 6.2: \"the recipient MUST treat this as a connection error\"
  headers 1 0d ff call:EmptyCall
  want connection 1 2 6 9

HEADERS with more padding than priority leaves
  should RFC 9113, 4.2: \"too small to contain mandatory frame data\", as we read it
  headers 1 2d 02 0000000010 00
  want stream 1 1 2 6 9

DATA with PADDED and no payload
  must RFC 9113, 4.2: \"MUST send an error code of FRAME_SIZE_ERROR\"
  control live 1
  headers 1 04 call:EmptyCall
  quiet
  !data 1 08
  want stream 1 1 2 6

HEADERS with PADDED and no payload
  must RFC 9113, 4.2: \"too small .. MUST be treated as a connection error\"
  headers 1 0d
  want connection 1 2 6 9

HEADERS with PRIORITY and four bytes
  must RFC 9113, 4.2: \"too small .. MUST be treated as a connection error\"
  headers 1 25 00000000
  want connection 1 2 6 9

an even stream
  must RFC 9113, 5.1 (idle): \"receiving a HEADERS frame MUST .. be treated as a connection error\"
  request 2
  want connection 1 2

a stream below one that was opened
  must RFC 9113, 5.1 (closed): \"MUST NOT send frames other than PRIORITY on a closed stream\"
  needs streams at least 2
  headers 5 04 call:FullDuplexCall
  sync
  request 3
  quiet
  want nothing 3
  want reset 3

streams that leave numbers out
  must RFC 9113, 6.9: frames but DATA \"MUST be accepted and processed\"; 5.1.1: gaps
  control answered 3
  request 1
  await answered 1
  ~request 3
  !request 101
  want answered 101

the last stream id that there is
  must RFC 9113, 6.9: frames but DATA \"MUST be accepted and processed\"; 5.1.1: 31 bits
  control answered 1
  ~request 1
  !request 2147483647
  want answered 2147483647

DATA on stream 0
  must RFC 9113, 6.1: \"MUST respond with a connection error .. of type PROTOCOL_ERROR\"
  data 0 00 0000000000
  want connection 1 2

HEADERS on stream 0
  must RFC 9113, 6.2: \"MUST respond with a connection error .. of type PROTOCOL_ERROR\"
  headers 0 05 call:EmptyCall
  want connection 1 2

PRIORITY on stream 0
  must RFC 9113, 6.3: \"MUST respond with a connection error .. of type PROTOCOL_ERROR\"
  priority 0 00 0000000110
  want connection 1 2

RST_STREAM on stream 0
  must RFC 9113, 6.4: \"MUST treat this as a connection error .. of type PROTOCOL_ERROR\"
  reset 0 00 00000008
  want connection 1 2

SETTINGS on a stream
  must RFC 9113, 6.5: \"MUST respond with a connection error .. of type PROTOCOL_ERROR\"
  settings 1 00
  want connection 1 2

SETTINGS with ACK on a stream
  must RFC 9113, 6.5: \"MUST respond with a connection error .. of type PROTOCOL_ERROR\"
  settings 1 01
  want connection 1 2

PUSH_PROMISE by a client
  must RFC 9113, 8.4: \"MUST treat the receipt of a PUSH_PROMISE frame as a connection error\"
  headers 1 04 call:FullDuplexCall
  push 1 04 00000002 call:EmptyCall
  want connection 1 2

PUSH_PROMISE on stream 0
  must RFC 9113, 8.4: \"MUST treat the receipt of a PUSH_PROMISE frame as a connection error\"
  push 0 04 00000002 call:EmptyCall
  want connection 1 2

PING on a stream
  must RFC 9113, 6.7: \"MUST respond with a connection error .. of type PROTOCOL_ERROR\"
  ping 1 00 0102030405060708
  want connection 1 2

GOAWAY on a stream
  must RFC 9113, 6.8: \"MUST treat a GOAWAY .. other than 0x00 as a connection error\"
  goaway 1 00 0000000000000000
  want connection 1 2

CONTINUATION on stream 0
  must RFC 9113, 6.10: \"MUST respond with a connection error .. of type PROTOCOL_ERROR\"
  continuation 0 04 call:EmptyCall
  want connection 1 2
";
