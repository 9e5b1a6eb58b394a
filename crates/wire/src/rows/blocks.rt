//! Header blocks over their frames.

pub const ROWS: &str = "\
a block in two frames
  must RFC 9113, 6.9: frames but DATA \"MUST be accepted and processed\"; 4.3: in fragments
  headers 1 00 :method=POST :scheme=http :path=/grpc.testing.TestService/EmptyCall
  continuation 1 04 :authority=localhost te=trailers content-type=application/grpc
  data 1 01 0000000000
  want answered 1

a block that is cut inside a string
  must RFC 9113, 6.9: frames but DATA \"MUST be accepted and processed\"; 4.3: cut anywhere
  headers 1 00 83 86 04 23 2f
  continuation 1 00 677270632e74657374696e672e5465737453657276
  continuation 1 00 6963652f456d70747943616c6c 01 str:localhost te=trailers
  continuation 1 04 content-type=application/grpc
  data 1 01 0000000000
  want answered 1

a block whose first fragments are empty
  must RFC 9113, 6.9: frames but DATA \"MUST be accepted and processed\" (10.5: \"suspicious\")
  headers 1 00
  continuation 1 00
  continuation 1 00 call:EmptyCall
  continuation 1 04
  data 1 01 0000000000
  want answered 1
  want connection 11

a block in frames of one byte
  must RFC 9113, 6.9: frames but DATA \"MUST be accepted and processed\" (10.5: \"suspicious\")
  headers 1 00 83
  continuation 1 00 86
  continuation 1 00 04
  continuation 1 00 23
  continuation 1 00 2f
  continuation 1 00 67
  continuation 1 00 72
  continuation 1 04 70632e74657374696e672e54657374536572766963652f456d70747943616c6c 01 str:localhost te=trailers content-type=application/grpc
  data 1 01 0000000000
  want answered 1
  want connection 11

END_STREAM on HEADERS that CONTINUATION goes on with
  should RFC 9113, 6.2: CONTINUATION may follow (gRPC's clients send an empty DATA frame)
  headers 1 01 :method=POST :scheme=http :path=/grpc.testing.TestService/FullDuplexCall
  continuation 1 04 01 str:localhost te=trailers content-type=application/grpc
  want answered 1
  want failed 1

trailers in two frames
  should RFC 9113, 8.1: the format of a request; gRPC's has no trailers
  headers 1 04 call:StreamingInputCall
  data 1 00 0000000000
  headers 1 01 x=a
  continuation 1 04 y=b
  want answered 1
  want failed 1

flags of no meaning on CONTINUATION
  must RFC 9113, 4.1: \"Unused flags MUST be ignored on receipt\"
  control answered 1
  headers 1 00 call:EmptyCall
  ~continuation 1 04
  !continuation 1 ff
  data 1 01 0000000000
  want answered 1

DATA inside a block
  must RFC 9113, 6.2: \"MUST treat .. any other type of frame .. as a connection error\"
  headers 1 00 call:EmptyCall
  data 1 01 0000000000
  want connection 1 2 9

HEADERS of the same stream inside a block
  must RFC 9113, 6.2: \"MUST treat .. any other type of frame .. as a connection error\"
  headers 1 00 call:EmptyCall
  headers 1 04 x=a
  want connection 1 2 9

HEADERS of another stream inside a block
  must RFC 9113, 6.2: \"MUST treat .. any other type of frame .. as a connection error\"
  headers 1 00 call:EmptyCall
  headers 3 05 call:EmptyCall
  want connection 1 2 9

CONTINUATION of another stream inside a block
  must RFC 9113, 6.2: \"MUST treat .. any other type of frame .. as a connection error\"
  headers 1 00 call:EmptyCall
  continuation 3 04
  want connection 1 2 9

PING inside a block
  must RFC 9113, 6.2: \"MUST treat .. any other type of frame .. as a connection error\"
  headers 1 00 call:EmptyCall
  ping 0 00 0102030405060708
  want connection 1 2 9

SETTINGS inside a block
  must RFC 9113, 6.2: \"MUST treat .. any other type of frame .. as a connection error\"
  headers 1 00 call:EmptyCall
  settings 0 00
  want connection 1 2 9

WINDOW_UPDATE inside a block
  must RFC 9113, 6.2: \"MUST treat .. any other type of frame .. as a connection error\"
  headers 1 00 call:EmptyCall
  window 0 00 00000001
  want connection 1 2 9

RST_STREAM inside a block
  must RFC 9113, 6.2: \"MUST treat .. any other type of frame .. as a connection error\"
  headers 1 00 call:EmptyCall
  reset 1 00 00000008
  want connection 1 2 9

PRIORITY inside a block
  must RFC 9113, 6.2: \"MUST treat .. any other type of frame .. as a connection error\"
  headers 1 00 call:EmptyCall
  priority 1 00 0000000010
  want connection 1 2 9

GOAWAY inside a block
  must RFC 9113, 6.2: \"MUST treat .. any other type of frame .. as a connection error\"
  headers 1 00 call:EmptyCall
  goaway 0 00 0000000000000000
  want connection 1 2 9

an unknown type inside a block
  must RFC 9113, 5.5: \"MUST be treated as a connection error .. of type PROTOCOL_ERROR\"
  headers 1 00 call:EmptyCall
  type22 1 00
  want connection 1 2 9

DATA inside trailers
  must RFC 9113, 6.2: \"MUST treat .. any other type of frame .. as a connection error\"
  headers 1 04 call:EmptyCall
  headers 1 01 x=a
  data 1 00 00
  want connection 1 2 9

CONTINUATION without HEADERS
  must RFC 9113, 6.10: \"MUST respond with a connection error .. of type PROTOCOL_ERROR\"
  continuation 1 04 call:EmptyCall
  want connection 1 2

CONTINUATION after END_HEADERS
  must RFC 9113, 6.10: \"MUST respond with a connection error .. of type PROTOCOL_ERROR\"
  headers 1 04 call:EmptyCall
  continuation 1 04 x=a
  want connection 1 2

CONTINUATION after DATA
  must RFC 9113, 6.10: \"MUST respond with a connection error .. of type PROTOCOL_ERROR\"
  headers 1 04 call:EmptyCall
  data 1 00 00
  continuation 1 04 x=a
  want connection 1 2

CONTINUATION after CONTINUATION with END_HEADERS
  must RFC 9113, 6.10: \"MUST respond with a connection error .. of type PROTOCOL_ERROR\"
  headers 1 00 call:EmptyCall
  continuation 1 04
  continuation 1 04
  want connection 1 2

a block of over 65,536 bytes
  ours a connection error ENHANCE_YOUR_CALM
  headers 1 01 call:EmptyCall 00 str:x-pad 7f81ff03 61*16000
  continuation 1 00 61*16384
  continuation 1 00 61*16384
  continuation 1 00 61*16384
  continuation 1 00 61*384
  want connection 11

PRIORITY that names its own stream
  should RFC 9113, 5.3.2: it is deprecated; RFC 7540, 5.3.1, has a stream error
  headers 1 04 call:EmptyCall
  priority 1 00 0000000110
  data 1 01 0000000000
  want answered 1
  want stream 1 1 2

HEADERS with a priority that names its own stream
  should RFC 9113, 5.3.2: it is deprecated; RFC 7540, 5.3.1, has a stream error
  headers 1 24 0000000110 call:EmptyCall
  data 1 01 0000000000
  want answered 1
  want stream 1 1 2
";
