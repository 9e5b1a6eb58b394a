//! SETTINGS, PING, GOAWAY and PRIORITY.

pub const ROWS: &str = "\
the server's SETTINGS have lawful values
  must RFC 9113, 6.5.2: \"MUST NOT explicitly set this value to 1\"; \"MUST be between\"
  sync
  want settings and ignored

SETTINGS of no parameters
  must RFC 9113, 6.5.3: \"MUST immediately emit a SETTINGS frame with the ACK flag set\"
  settings 0 00
  want acks 2

each SETTINGS is acknowledged
  must RFC 9113, 6.5.3: \"MUST immediately emit a SETTINGS frame with the ACK flag set\"
  settings 0 00 000300000064
  settings 0 00 000300000065
  settings 0 00 000300000066
  await acks 4
  quiet
  want acks 4

SETTINGS while a stream is open
  must RFC 9113, 6.5.3: \"MUST immediately emit a SETTINGS frame with the ACK flag set\"
  control answered 1
  headers 1 04 call:EmptyCall
  !settings 0 00 000300000064
  data 1 01 0000000000
  want acks 2 and answered 1

a parameter that isn't known
  must RFC 9113, 6.5.2: \"unknown or unsupported identifier MUST ignore that setting\"
  settings 0 00 00ff00000001 f0f0ffffffff
  sync
  want acks 2 and ignored

parameter 0
  must RFC 9113, 6.5.2: \"unknown or unsupported identifier MUST ignore that setting\"
  settings 0 00 0000ffffffff
  sync
  want acks 2 and ignored

a parameter twice
  should RFC 9113, 6.5: \"the last value that is seen\"; 10.5: a server \"MAY\" end it
  control answered 1
  !settings 0 00 000300000001 000300000064
  request 1
  want acks 2 and answered 1
  want connection 1 2 11

ENABLE_PUSH 0 and 1
  must RFC 9113, 6.5.3: \"MUST immediately emit a SETTINGS frame with the ACK flag set\"
  settings 0 00 000200000000
  settings 0 00 000200000001
  sync
  want acks 3 and ignored

ENABLE_PUSH 2
  must RFC 9113, 6.5.2: \"Any value other than 0 or 1 MUST be treated as a connection error\"
  settings 0 00 000200000002
  want connection 1 2

ENABLE_PUSH 2^32 - 1
  must RFC 9113, 6.5.2: \"Any value other than 0 or 1 MUST be treated as a connection error\"
  settings 0 00 0002ffffffff
  want connection 1 2

MAX_FRAME_SIZE 16,383
  must RFC 9113, 6.5.2: \"Values outside this range MUST be treated as a connection error\"
  settings 0 00 000500003fff
  want connection 1 2

MAX_FRAME_SIZE 0
  must RFC 9113, 6.5.2: \"Values outside this range MUST be treated as a connection error\"
  settings 0 00 000500000000
  want connection 1 2

MAX_FRAME_SIZE 16,777,216
  must RFC 9113, 6.5.2: \"Values outside this range MUST be treated as a connection error\"
  settings 0 00 000501000000
  want connection 1 2

the least and the greatest MAX_FRAME_SIZE
  must RFC 9113, 6.5.3: \"MUST immediately emit a SETTINGS frame with the ACK flag set\"
  control answered 1
  !settings 0 00 000500004000
  !settings 0 00 000500ffffff
  request 1
  want acks 3 and answered 1

a bad parameter after a good one
  must RFC 9113, 6.5.2: \"Any value other than 0 or 1 MUST be treated as a connection error\"
  settings 0 00 000300000064 000200000002
  want connection 1 2

MAX_CONCURRENT_STREAMS 0
  must RFC 9113, 6.9: frames but DATA \"MUST be accepted and processed\"; 5.1.2: of the server's
  control answered 1
  !settings 0 00 000300000000
  request 1
  want answered 1

HEADER_TABLE_SIZE 2^32 - 1
  must RFC 9113, 6.5.3: \"MUST immediately emit a SETTINGS frame with the ACK flag set\"
  settings 0 00 0001ffffffff
  sync
  want acks 2 and ignored

MAX_HEADER_LIST_SIZE 2^32 - 1
  must RFC 9113, 6.5.3: \"MUST immediately emit a SETTINGS frame with the ACK flag set\"
  settings 0 00 0006ffffffff
  sync
  want acks 2 and ignored

a hundred parameters in a frame
  must RFC 9113, 6.5.3: \"MUST immediately emit a SETTINGS frame with the ACK flag set\"; 10.5
  settings 0 00 000300000064*100
  sync
  want acks 2 and ignored
  want connection 1 2 11

SETTINGS with ACK that acknowledge nothing
  ours they are ignored
  settings 0 01
  settings 0 01
  sync
  want ignored

PING
  must RFC 9113, 6.7: \"MUST send a PING frame with the ACK flag set in response\"
  ping 0 00 00ff10ef20df30cf
  want ping 00ff10ef20df30cf

PING while a stream is open
  must RFC 9113, 6.7: \"MUST send a PING frame with the ACK flag set in response\"
  control answered 1
  headers 1 04 call:EmptyCall
  !ping 0 00 0102030405060708
  data 1 01 0000000000
  want ping 0102030405060708

two PINGs at once
  must RFC 9113, 6.7: \"MUST send a PING frame with the ACK flag set in response\"
  raw 000008060000000000 0102030405060708 000008060000000000 1112131415161718
  want ping 0102030405060708 and ping 1112131415161718

PING with ACK
  must RFC 9113, 6.7: \"MUST NOT respond to PING frames containing this flag\"
  ping 0 01 0102030405060708
  quiet
  want silent 0102030405060708

GOAWAY without an error, and a call that is open
  should RFC 9113, 6.8: such streams \"might still complete successfully\"
  control answered 1
  headers 1 04 call:EmptyCall
  !goaway 0 00 0000000000000000
  data 1 01 0000000000
  want answered 1
  want connection 0

GOAWAY with debug data
  must RFC 9113, 6.9: frames but DATA \"MUST be accepted and processed\"; 6.8: \"opaque data\"
  control ignored
  headers 1 04 call:FullDuplexCall
  !goaway 0 00 0000000000000000 676f6f64627965
  sync
  want ignored
  want connection 0

GOAWAY with an error that isn't known
  must RFC 9113, 7: unknown codes \"MUST NOT trigger any special behavior\"
  control ignored
  headers 1 04 call:FullDuplexCall
  !goaway 0 00 00000000ffffffff
  sync
  want ignored
  want connection 0

two GOAWAYs
  must RFC 9113, 6.9: frames but DATA \"MUST be accepted and processed\"; 6.8: \"multiple GOAWAY\"
  control ignored
  headers 1 04 call:FullDuplexCall
  !goaway 0 00 7ffffffe00000000
  !goaway 0 00 0000000000000000
  sync
  want ignored
  want connection 0

PRIORITY on streams to come
  must RFC 9113, 6.9: frames but DATA \"MUST be accepted and processed\"; 6.3: in any state
  control answered 11
  !priority 3 00 0000000010
  !priority 5 00 80000003ff
  !priority 9 00 0000000500
  request 11
  want answered 11

PRIORITY doesn't open a stream
  must RFC 9113, 6.9: frames but DATA \"MUST be accepted and processed\"; 6.3: state stays
  control answered 1
  !priority 7 00 0000000010
  request 1
  want answered 1

a request after PING of no bytes
  must RFC 9113, 6.7: \"MUST be treated as a connection error .. of type FRAME_SIZE_ERROR\"
  raw 000000060000000000
  request 1
  want connection 1 2 6

a request after a wrong frame isn't answered
  should RFC 9113, 5.4.1: an error \"that prevents further processing of the frame layer\"
  raw 000000060000000000
  request 1
  await closed
  want nothing 1
";
