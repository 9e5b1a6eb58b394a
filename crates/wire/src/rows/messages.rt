//! Length-prefixed messages.

pub const ROWS: &str = "\
a message that is cut after its flag
  should gRPC, Data Frames: they \"have no relation to Length-Prefixed-Message boundaries\"
  control status 1 0
  headers 1 04 call:UnaryCall
  ~data 1 01 00 00000002 1003
  !data 1 00 00
  !data 1 01 00000002 1003
  want status 1 0 and replies 1 1

a message that is cut inside its length, after one byte
  should gRPC, Data Frames: they \"have no relation to Length-Prefixed-Message boundaries\"
  control status 1 0
  headers 1 04 call:UnaryCall
  ~data 1 01 00 00000002 1003
  !data 1 00 0000
  !data 1 01 000002 1003
  want status 1 0 and replies 1 1

a message that is cut inside its length, after two bytes
  should gRPC, Data Frames: they \"have no relation to Length-Prefixed-Message boundaries\"
  control status 1 0
  headers 1 04 call:UnaryCall
  ~data 1 01 00 00000002 1003
  !data 1 00 000000
  !data 1 01 0002 1003
  want status 1 0 and replies 1 1

a message that is cut inside its length, after three bytes
  should gRPC, Data Frames: they \"have no relation to Length-Prefixed-Message boundaries\"
  control status 1 0
  headers 1 04 call:UnaryCall
  ~data 1 01 00 00000002 1003
  !data 1 00 00000000
  !data 1 01 02 1003
  want status 1 0 and replies 1 1

a message that is cut after its prefix
  should gRPC, Data Frames: they \"have no relation to Length-Prefixed-Message boundaries\"
  control status 1 0
  headers 1 04 call:UnaryCall
  ~data 1 01 00 00000002 1003
  !data 1 00 0000000002
  !data 1 01 1003
  want status 1 0 and replies 1 1

a message that is cut inside its bytes
  should gRPC, Data Frames: they \"have no relation to Length-Prefixed-Message boundaries\"
  control status 1 0
  headers 1 04 call:UnaryCall
  ~data 1 01 00 00000002 1003
  !data 1 00 0000000002 10
  !data 1 01 03
  want status 1 0 and replies 1 1

a message in DATA of one byte each
  should gRPC, Data Frames: \"no relation to Length-Prefixed-Message\" (RFC 9113, 10.5)
  control status 1 0
  headers 1 04 call:UnaryCall
  ~data 1 01 00 00000002 1003
  !data 1 00 00
  !data 1 00 00
  !data 1 00 00
  !data 1 00 00
  !data 1 00 02
  !data 1 00 10
  !data 1 00 03
  !data 1 01
  want status 1 0 and replies 1 1
  want connection 11

a message with empty DATA inside
  should gRPC, Data Frames: \"no relation to Length-Prefixed-Message\" (RFC 9113, 10.5)
  control status 1 0
  headers 1 04 call:UnaryCall
  ~data 1 01 00 00000002 1003
  !data 1 00
  !data 1 00 0000
  !data 1 00
  !data 1 00 000002 10
  !data 1 00
  !data 1 01 03
  want status 1 0 and replies 1 1
  want connection 11

a message with padding inside
  should RFC 9113, 6.1: the format; padding has \"no application semantic value\"
  control status 1 0
  headers 1 04 call:UnaryCall
  ~data 1 01 00 00000002 1003
  !data 1 08 03 0000 000000
  !data 1 09 01 000002 1003 00
  want status 1 0 and replies 1 1

two messages in a DATA frame
  should gRPC, Data Frames: they \"have no relation to Length-Prefixed-Message boundaries\"
  headers 1 04 call:FullDuplexCall
  data 1 01 00 00000004 12020801 00 00000004 12020802
  want status 1 0 and replies 1 2

two messages, the second of which begins in the first one's frame
  should gRPC, Data Frames: they \"have no relation to Length-Prefixed-Message boundaries\"
  control status 1 0
  headers 1 04 call:FullDuplexCall
  ~data 1 01 00 00000004 12020801 00 00000004 12020802
  !data 1 00 00 00000004 12020801 00 0000
  !data 1 01 0004 12020802
  want status 1 0 and replies 1 2

a message and END_STREAM in frames of their own
  must gRPC, Requests: EOS; clients \"MUST send an empty DATA frame with this flag set\"
  control status 1 0
  headers 1 04 call:EmptyCall
  !data 1 00 0000000000
  !data 1 01
  ~data 1 01 0000000000
  want status 1 0

flag 2
  should gRPC, Requests: Compressed-Flag, \"0 / 1\" (it binds the client)
  control status 1 0
  headers 1 04 call:UnaryCall
  data 1 01 !02 ~00 00000002 1003
  want failed 1
  want connection 1 2

flag 255
  should gRPC, Requests: Compressed-Flag, \"0 / 1\" (it binds the client)
  control status 1 0
  headers 1 04 call:UnaryCall
  data 1 01 !ff ~00 00000002 1003
  want failed 1
  want connection 1 2

flag 7 is answered by status 13
  ours status 13 `bad flag`
  headers 1 04 call:EmptyCall
  data 1 01 0700000000
  await answered 1
  want status 1 13 and trailer 1 grpc-message=bad flag

flag 7 is answered before the message is whole
  ours as soon as the flag is there
  headers 1 04 call:EmptyCall
  data 1 00 07
  want status 1 13

the request ends after a flag
  should gRPC, Requests: the format of Length-Prefixed-Message (it binds the client)
  headers 1 04 call:StreamingInputCall
  data 1 01 00
  want failed 1
  want connection 1 2

the request ends inside a length
  should gRPC, Requests: the format of Length-Prefixed-Message (it binds the client)
  headers 1 04 call:StreamingInputCall
  data 1 01 000000
  want failed 1
  want connection 1 2

the request ends after a prefix
  should gRPC, Requests: the format of Length-Prefixed-Message (it binds the client)
  headers 1 04 call:StreamingInputCall
  data 1 01 0000000002
  want failed 1
  want connection 1 2

the request ends inside a message's bytes
  should gRPC, Requests: the format of Length-Prefixed-Message (it binds the client)
  headers 1 04 call:StreamingInputCall
  data 1 01 0000000006 0a0412
  want failed 1
  want connection 1 2

the request ends inside the second message
  should gRPC, Requests: the format of Length-Prefixed-Message (it binds the client)
  headers 1 04 call:StreamingInputCall
  data 1 01 0000000006 0a0412020000 00000000
  want failed 1
  want connection 1 2

a request that ends inside a message is answered by status 13
  ours status 13 `message cut at end`
  headers 1 04 call:StreamingInputCall
  data 1 01 0000000006 0a04
  await answered 1
  want status 1 13 and trailer 1 grpc-message=message cut at end

a message of 4 GiB is announced
  should gRPC, Status codes: \"message was larger than configured limit\": RESOURCE_EXHAUSTED
  headers 1 04 call:UnaryCall
  data 1 00 00ffffffff
  want status 1 8

a message of 4,194,305 bytes is announced
  ours over 4 MiB is status 8 `message too long`, as soon as the length is there
  headers 1 04 call:UnaryCall
  data 1 00 0000400001
  await answered 1
  want status 1 8 and trailer 1 grpc-message=message too long

a message of 4,194,304 bytes
  ours it is taken
  headers 1 04 call:StreamingInputCall
  data 1 00 0000400000 0afbffff01 12f6ffff01
  upload 1 4194294
  data 1 01
  await answered 1
  want status 1 0 and replies 1 1

no message for a unary call
  should gRPC, Status codes: \"Request cardinality violation\"
  headers 1 04 call:EmptyCall
  data 1 01
  want failed 1

two messages for a unary call
  should gRPC, Status codes: \"Request cardinality violation\"
  headers 1 04 call:EmptyCall
  data 1 01 0000000000 0000000000
  want failed 1
  want connection 1 2

a wrong number of messages is answered by status 13
  ours status 13 `wrong number of messages`
  headers 1 05 call:UnaryCall
  await answered 1
  want status 1 13 and trailer 1 grpc-message=wrong number of messages

a message that is no Protocol Buffers
  should gRPC, Status codes: \"Error parsing request proto\"
  control status 1 0
  headers 1 04 call:UnaryCall
  data 1 01 0000000002 !10ff ~1003
  want failed 1
  want connection 1 2

a message of group tags
  ours status 13 `malformed message`
  headers 1 04 call:UnaryCall
  data 1 01 0000000001 0b
  await answered 1
  want status 1 13 and trailer 1 grpc-message=malformed message

a message with a field that isn't known
  should Protocol Buffers, Encoding: unknown fields are no error
  headers 1 04 call:UnaryCall
  data 1 01 0000000005 f807011003
  await answered 1
  want status 1 0 and replies 1 1

a number in ten bytes
  should Protocol Buffers, Encoding: varints of up to ten bytes
  headers 1 04 call:UnaryCall
  data 1 01 000000000b 1083808080808080808000
  await answered 1
  want status 1 0 and replies 1 1

a field twice
  should Protocol Buffers, Encoding: parsers take the last of several
  headers 1 04 call:UnaryCall
  data 1 01 0000000004 10051003
  await answered 1
  want status 1 0 and has 1 1203

expect_compressed
  should interop, CompressedRequest: \"it fails the RPC with INVALID_ARGUMENT\"
  headers 1 04 call:UnaryCall
  data 1 01 0000000004 42020801
  want status 1 3

a response of a size below zero
  ours status 3
  headers 1 04 call:UnaryCall
  data 1 01 000000000b 10ffffffffffffffffff01
  want status 1 3

a response of over 4,000,000 bytes
  ours status 3
  headers 1 04 call:UnaryCall
  data 1 01 0000000005 108192f401
  want status 1 3

a response type that isn't there
  ours status 3
  headers 1 04 call:UnaryCall
  data 1 01 0000000002 0801
  want status 1 3
";
