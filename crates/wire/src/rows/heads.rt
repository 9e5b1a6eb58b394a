//! Heads of calls.

pub const ROWS: &str = "\
content-type application/grpc+proto
  should gRPC, Appendix A: Content-Type \"application/grpc+proto\"
  control status 1 0
  headers 1 04 83 86 path:EmptyCall 01 str:localhost te=trailers !content-type=application/grpc+proto ~content-type=application/grpc
  data 1 01 0000000000
  want status 1 0

content-type application/json
  should gRPC, Requests: \"SHOULD respond with HTTP status of 415\"
  headers 1 04 83 86 path:EmptyCall 01 str:localhost te=trailers content-type=application/json
  data 1 01 0000000000
  want http 1 415

no content-type
  should gRPC, Requests: \"SHOULD respond with HTTP status of 415\"
  headers 1 04 83 86 path:EmptyCall 01 str:localhost te=trailers
  data 1 01 0000000000
  want http 1 415

a request that isn't gRPC's is not answered as a call
  should gRPC, Requests: \"SHOULD respond with HTTP status of 415\"
  headers 1 04 83 86 path:EmptyCall 01 str:localhost te=trailers content-type=text/plain
  data 1 01 0000000000
  want failed 1
  want connection 1 2

GET
  should gRPC, Requests: Method, \":method POST\" (it binds the client)
  control status 1 0
  headers 1 04 !82 ~83 86 path:EmptyCall 01 str:localhost te=trailers content-type=application/grpc
  data 1 01 0000000000
  want failed 1
  want connection 1 2

GET is answered by 405
  ours :status 405
  headers 1 05 82 86 path:EmptyCall 01 str:localhost te=trailers content-type=application/grpc
  want http 1 405

scheme https
  ours it is accepted, as a trusted gateway's (RFC 9110, 7.4; else it \"MUST be rejected\")
  headers 1 04 83 87 path:EmptyCall 01 str:localhost te=trailers content-type=application/grpc
  data 1 01 0000000000
  want status 1 0

no te
  ours it is accepted
  headers 1 04 83 86 path:EmptyCall 01 str:localhost content-type=application/grpc
  data 1 01 0000000000
  want status 1 0

no :authority
  should gRPC, Requests: \"[Authority]\" is optional in Call-Definition
  control status 1 0
  headers 1 04 83 86 path:EmptyCall ~01 ~str:localhost te=trailers content-type=application/grpc
  data 1 01 0000000000
  want status 1 0

fields that aren't known
  should RFC 9110, 5.1: \"SHOULD ignore unrecognized header and trailer fields\"
  control status 1 0
  headers 1 04 call:EmptyCall !x-y=z !grpc-unknown=1 !user-agent=a/1 !accept-encoding=gzip !grpc-accept-encoding=gzip
  data 1 01 0000000000
  want status 1 0

a field of 4,000 bytes
  should gRPC, Requests: \"Servers may limit the size\", \"with a default of 8 KiB suggested\"
  needs list at least 4349
  control status 1 0
  headers 1 04 call:EmptyCall !00 !str:x-pad !7fa11e !61*4000
  data 1 01 0000000000
  want status 1 0

grpc-encoding identity
  should gRPC, Requests: the format of Content-Coding, \"identity\"
  control status 1 0
  headers 1 04 call:EmptyCall !grpc-encoding=identity
  data 1 01 0000000000
  want status 1 0

grpc-encoding that isn't known, and a message without compression
  should gRPC, Compression: a message \"in a way not supported .. MUST fail\" (this one is plain)
  control status 1 0
  headers 1 04 call:EmptyCall !grpc-encoding=none-such
  data 1 01 0000000000
  want status 1 0
  want failed 1

grpc-encoding that isn't known, and a compressed message
  must gRPC, Compression: \"not supported by its server MUST fail with status UNIMPLEMENTED\"
  control status 1 0
  headers 1 04 call:UnaryCall !grpc-encoding=none-such
  data 1 01 !01 ~00 00000002 1003
  want status 1 12

a compressed message without grpc-encoding
  must gRPC, Compression: \"lacking a grpc-encoding entry .. MUST fail with INTERNAL status\"
  control status 1 0
  headers 1 04 call:UnaryCall
  data 1 01 !01 ~00 00000002 1003
  want status 1 13

a compressed message under identity
  must gRPC, Compression: \"different from identity .. MUST fail with INTERNAL status\"
  control status 1 0
  headers 1 04 call:UnaryCall grpc-encoding=identity
  data 1 01 !01 ~00 00000002 1003
  want status 1 13

timeout of 99999999 hours
  should gRPC, Requests: the format of Timeout, \"at most 8 digits\"
  control status 1 0
  headers 1 04 call:EmptyCall !grpc-timeout=99999999H
  data 1 01 0000000000
  want status 1 0

timeout of 10 minutes
  should gRPC, Requests: the format of Timeout, \"at most 8 digits\"
  control status 1 0
  headers 1 04 call:EmptyCall !grpc-timeout=10M
  data 1 01 0000000000
  want status 1 0

timeout of 10 seconds
  should gRPC, Requests: the format of Timeout, \"at most 8 digits\"
  control status 1 0
  headers 1 04 call:EmptyCall !grpc-timeout=10S
  data 1 01 0000000000
  want status 1 0

timeout of 10,000 milliseconds
  should gRPC, Requests: the format of Timeout, \"at most 8 digits\"
  control status 1 0
  headers 1 04 call:EmptyCall !grpc-timeout=10000m
  data 1 01 0000000000
  want status 1 0

timeout of ten seconds in microseconds
  should gRPC, Requests: the format of Timeout, \"at most 8 digits\"
  control status 1 0
  headers 1 04 call:EmptyCall !grpc-timeout=10000000u
  data 1 01 0000000000
  want status 1 0

timeout of 99999999 nanoseconds
  should gRPC, Requests: the format of Timeout, \"at most 8 digits\" (a tenth of a second)
  control status 1 0
  headers 1 04 call:EmptyCall !grpc-timeout=99999999n
  data 1 01 0000000000
  want status 1 0 4
  want reset 1

timeout with zeros before it
  should gRPC, Requests: the format of Timeout has no word of zeros before it
  control status 1 0
  headers 1 04 call:EmptyCall !grpc-timeout=00000010S
  data 1 01 0000000000
  want status 1 0

timeout without a unit
  should gRPC, Requests: the format of Timeout (it binds the client)
  headers 1 04 call:EmptyCall grpc-timeout=10
  data 1 01 0000000000
  want failed 1
  want connection 1 2

timeout of a unit that isn't there
  should gRPC, Requests: the format of Timeout (it binds the client)
  headers 1 04 call:EmptyCall grpc-timeout=10x
  data 1 01 0000000000
  want failed 1
  want connection 1 2

timeout of nine digits
  should gRPC, Requests: the format of Timeout (it binds the client)
  headers 1 04 call:EmptyCall grpc-timeout=123456789S
  data 1 01 0000000000
  want failed 1
  want connection 1 2

timeout without digits
  should gRPC, Requests: the format of Timeout (it binds the client)
  headers 1 04 call:EmptyCall grpc-timeout=S
  data 1 01 0000000000
  want failed 1
  want connection 1 2

timeout below zero
  should gRPC, Requests: the format of Timeout (it binds the client)
  headers 1 04 call:FullDuplexCall grpc-timeout=-1S
  want failed 1
  want connection 1 2

an empty timeout
  should gRPC, Requests: the format of Timeout (it binds the client)
  headers 1 04 call:EmptyCall grpc-timeout=
  data 1 01 0000000000
  want failed 1
  want connection 1 2

a malformed timeout is answered by status 13
  ours status 13 `bad timeout`
  headers 1 04 call:EmptyCall grpc-timeout=10
  data 1 01 0000000000
  await answered 1
  want status 1 13 and trailer 1 grpc-message=bad timeout

the first of two timeouts counts
  ours the first
  headers 1 04 call:EmptyCall grpc-timeout=10S grpc-timeout=x
  data 1 01 0000000000
  want status 1 0
";
