//! Metadata that come back.

pub const ROWS: &str = "\
an initial echo
  should interop, Echo Metadata: \"sends back exactly this key and the corresponding value\"
  headers 1 04 call:UnaryCall x-grpc-test-echo-initial=test_initial_metadata_value
  data 1 01 0000000002 1003
  await answered 1
  want status 1 0 and head 1 x-grpc-test-echo-initial=test_initial_metadata_value

a trailing echo
  should interop, Echo Metadata: \"sends back exactly this key and the corresponding value\"
  headers 1 04 call:UnaryCall x-grpc-test-echo-trailing-bin=q6ur
  data 1 01 0000000002 1003
  await answered 1
  want status 1 0 and trailer 1 x-grpc-test-echo-trailing-bin=q6ur

a trailing echo of FullDuplexCall
  should interop, Echo Metadata: \"sends back exactly this key and the corresponding value\"
  headers 1 04 call:FullDuplexCall x-grpc-test-echo-trailing-bin=q6ur
  data 1 01 0000000004 12020801
  await answered 1
  want status 1 0 and trailer 1 x-grpc-test-echo-trailing-bin=q6ur

binary metadata with padding
  must gRPC, Requests: \"Implementations MUST accept padded and un-padded values\"
  control status 1 0
  headers 1 04 call:UnaryCall !x-grpc-test-echo-trailing-bin=qw%3d%3d
  data 1 01 0000000002 1003
  want status 1 0

binary metadata without padding
  must gRPC, Requests: \"Implementations MUST accept padded and un-padded values\"
  control status 1 0
  headers 1 04 call:UnaryCall !x-grpc-test-echo-trailing-bin=qw
  data 1 01 0000000002 1003
  want status 1 0

binary metadata are written without padding
  should gRPC, Requests: implementations \"should emit un-padded values\"
  headers 1 04 call:UnaryCall x-grpc-test-echo-trailing-bin=q6s%3d
  data 1 01 0000000002 1003
  await answered 1
  want trailer 1 x-grpc-test-echo-trailing-bin=q6s

two binary values with a comma between them
  should gRPC, Requests: implementations \"must split Binary-Headers on \",\"\"
  headers 1 04 call:UnaryCall x-grpc-test-echo-trailing-bin=qw,q6s
  data 1 01 0000000002 1003
  await answered 1
  want trailer 1 x-grpc-test-echo-trailing-bin=qw and trailer 1 x-grpc-test-echo-trailing-bin=q6s
  want trailer 1 x-grpc-test-echo-trailing-bin=qw,q6s

binary metadata that are no base64
  ours they carry no value and aren't echoed
  headers 1 04 call:UnaryCall x-grpc-test-echo-trailing-bin=q!
  data 1 01 0000000002 1003
  await answered 1
  want status 1 0 and without 1 x-grpc-test-echo-trailing-bin

two initial echoes
  ours both come back
  headers 1 04 call:UnaryCall x-grpc-test-echo-initial=a x-grpc-test-echo-initial=b
  data 1 01 0000000002 1003
  await answered 1
  want head 1 x-grpc-test-echo-initial=a and head 1 x-grpc-test-echo-initial=b

an initial echo of a call without a reply
  ours Response-Headers have it, Trailers follow
  headers 1 04 call:FullDuplexCall x-grpc-test-echo-initial=a
  data 1 01
  await answered 1
  want status 1 0 and head 1 x-grpc-test-echo-initial=a

no echo without a request for one
  should interop, Echo Metadata, has no word of calls that ask for none
  request 1
  await answered 1
  want without 1 x-grpc-test-echo-initial and without 1 x-grpc-test-echo-trailing-bin
";
