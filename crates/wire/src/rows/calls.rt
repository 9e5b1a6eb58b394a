//! Calls: their methods, statuses, order, cancellation and deadlines.

pub const ROWS: &str = "\
an empty call
  must gRPC, Responses; interop, EmptyCall: \"immediately returns the empty message\"
  request 1
  await answered 1
  want status 1 0 and replies 1 1 and reply 1

Response-Headers
  must gRPC, Responses: \":status 200\"; Content-Type: \"application/grpc\" and what may follow
  request 1
  await answered 1
  want head 1 :status=200 and begins 1 content-type=application/grpc

Status stands in Trailers
  must gRPC, Responses: \"Status must be sent in Trailers even if the status code is OK\"
  request 1
  await answered 1
  want trailer 1 grpc-status=0 and status 1 0

END_STREAM on HEADERS
  should gRPC, Requests: \"MUST send an empty DATA frame with this flag set\" (it binds the client)
  headers 1 05 call:FullDuplexCall
  want status 1 0 and replies 1 0
  want failed 1

END_STREAM on empty DATA
  must gRPC, Requests: EOS; interop, FullDuplexCall: \"After .. half close .. it closes with OK\"
  headers 1 04 call:FullDuplexCall
  data 1 01
  want status 1 0 and replies 1 0

a reply of UnaryCall
  must interop, UnaryCall: \"a payload body of size SimpleRequest.response_size bytes\"
  headers 1 04 call:UnaryCall
  data 1 01 00 00000002 1003
  await answered 1
  want status 1 0 and replies 1 1 and has 1 1203

three replies of StreamingOutputCall
  must interop, StreamingOutputCall: \"one .. Response for each ResponseParameters\"
  headers 1 04 call:StreamingOutputCall
  data 1 01 00 0000000c 12020801 12020802 12020803
  await answered 1
  want status 1 0 and replies 1 3

the sum of StreamingInputCall
  must interop, StreamingInputCall: \"the sum of all request payload bodies received\"
  headers 1 04 call:StreamingInputCall
  data 1 01 00 00000006 0a0412020000 00 00000007 0a051203000000
  await answered 1
  want status 1 0 and replies 1 1 and reply 1 0805

a reply of FullDuplexCall comes before the request ends
  must interop, FullDuplexCall: \"replying, in order\"; ping_pong waits for each reply
  headers 1 04 call:FullDuplexCall
  data 1 00 00 00000004 12020801
  await replies 1 1
  want replies 1 1 and open 1

HalfDuplexCall replies after the end
  should interop has no sentence; test.proto: after the client half-closes
  headers 1 04 call:HalfDuplexCall
  data 1 00 00 00000004 12020801
  sync
  quiet
  want replies 1 0 and open 1
  want nothing 1
  want status 1 12

HalfDuplexCall replies to each
  should interop has no sentence; test.proto: \"one or more responses\"
  headers 1 04 call:HalfDuplexCall
  data 1 01 00 00000004 12020801 00 00000004 12020802
  await answered 1
  want status 1 0 and replies 1 2
  want status 1 12

CacheableUnaryCall
  ours it answers as UnaryCall
  headers 1 04 call:CacheableUnaryCall
  data 1 01 00 00000002 1003
  await answered 1
  want status 1 0 and replies 1 1

two calls at once
  must gRPC, Stream Identification: \"HTTP2 stream-ids as call identifiers\"
  needs streams at least 2
  headers 1 04 call:EmptyCall
  headers 3 04 call:EmptyCall
  data 3 00 0000
  data 1 00 000000
  data 3 01 000000
  data 1 01 0000
  want status 1 0 and status 3 0

the second call ends before the first
  should gRPC, Stream Identification: \"HTTP2 stream-ids as call identifiers\"
  needs streams at least 2
  headers 1 04 call:FullDuplexCall
  request 3
  want status 3 0 and open 1

eight calls one after another
  must gRPC, Stream Identification: \"HTTP2 stream-ids as call identifiers\"
  needs streams at least 8
  request 1
  request 3
  request 5
  request 7
  request 9
  request 11
  request 13
  request 15
  want status 1 0 and status 3 0 and status 5 0 and status 7 0 and status 9 0 and status 11 0 and status 13 0 and status 15 0

a method that isn't there
  must interop, unimplemented_method: \"received status code is 12 (UNIMPLEMENTED)\"
  headers 1 04 call:UnimplementedCall
  data 1 01 0000000000
  want status 1 12
  want http 1 404

a method that isn't there, before the request ends
  should gRPC, Status codes: \"Method not found at server\"; when isn't said
  headers 1 04 call:UnimplementedCall
  want status 1 12

a service that isn't there
  must interop, unimplemented_service: \"received status code is 12 (UNIMPLEMENTED)\"
  headers 1 04 83 86 :path=/grpc.testing.UnimplementedService/UnimplementedCall 01 str:localhost te=trailers content-type=application/grpc
  data 1 01 0000000000
  want status 1 12
  want http 1 404

a method in another case of letters
  must gRPC, Requests: \"Path is case-sensitive\"
  control status 1 0
  headers 1 04 !call:emptycall ~call:EmptyCall
  data 1 01 0000000000
  want failed 1
  want connection 1 2

a path with a slash at its end
  should gRPC, Requests: the format of Path, which implementations \"may allow .. to be overridden\"
  control status 1 0
  headers 1 04 !call:EmptyCall/ ~call:EmptyCall
  data 1 01 0000000000
  want failed 1
  want connection 1 2

a path with a query
  should gRPC, Requests: the format of Path, which implementations \"may allow .. to be overridden\"
  headers 1 04 83 86 path:EmptyCall?a 01 str:localhost te=trailers content-type=application/grpc
  data 1 01 0000000000
  want failed 1
  want connection 1 2

a path of a slash
  should gRPC, Requests: the format of Path, which implementations \"may allow .. to be overridden\"
  headers 1 04 83 86 84 01 str:localhost te=trailers content-type=application/grpc
  data 1 01 0000000000
  want failed 1
  want connection 1 2

a path without a slash
  should gRPC, Requests: the format of Path, which implementations \"may allow .. to be overridden\"
  headers 1 04 83 86 :path=grpc.testing.TestService/EmptyCall 01 str:localhost te=trailers content-type=application/grpc
  data 1 01 0000000000
  want failed 1
  want connection 1 2

a refusal is one header block
  ours Trailers-Only
  headers 1 04 call:UnimplementedCall
  data 1 01 0000000000
  await answered 1
  want single 1 and head 1 :status=200 and head 1 grpc-status=12

the text of an unknown method
  ours `unknown method`
  headers 1 04 call:UnimplementedCall
  data 1 01 0000000000
  await answered 1
  want trailer 1 grpc-message=unknown method

a status that is asked for
  should interop, Echo Status: \"the status code and message contained within\"
  headers 1 04 call:UnaryCall
  data 1 01 00 00000007 3a05 0802 1201 78
  await answered 1
  want status 1 2 and trailer 1 grpc-message=x

a status's text that isn't ASCII
  should gRPC, Responses: the format of Percent-Encoded
  headers 1 04 call:UnaryCall
  data 1 01 00 0000000d 3a0b 0802 1207 0a41 e298ba 2578
  await answered 1
  want status 1 2 and trailer 1 grpc-message=%0AA%E2%98%BA%25x
  want status 1 2 and trailer 1 grpc-message=%0A%41%E2%98%BA%25%78

a status of FullDuplexCall that is asked for
  should interop, Echo Status: \"the status code and message contained within\"
  headers 1 04 call:FullDuplexCall
  data 1 01 00 00000007 3a05 0802 1201 78
  await answered 1
  want status 1 2 and trailer 1 grpc-message=x

a status of over 16 that is asked for
  ours it becomes 2
  headers 1 04 call:UnaryCall
  data 1 01 00 00000004 3a02 0863
  want status 1 2

status 0 has no text
  ours no grpc-message
  request 1
  await answered 1
  want status 1 0 and without 1 grpc-message

a deadline passes
  should gRPC, Status codes: \"Deadline expires before server returns status\"
  headers 1 04 call:FullDuplexCall grpc-timeout=50m
  await answered 1
  want status 1 4
  want reset 1
  want status 1 1

a deadline of a nanosecond
  should gRPC, Status codes: \"Deadline expires before server returns status\"
  headers 1 04 call:FullDuplexCall grpc-timeout=1n
  await answered 1
  want status 1 4
  want reset 1
  want status 1 1

a deadline passes after a reply
  should gRPC, Status codes: \"Deadline expires before server returns status\"
  headers 1 04 call:FullDuplexCall grpc-timeout=200m
  data 1 00 00 00000004 12020801
  await answered 1
  want status 1 4 and replies 1 1
  want reset 1 and replies 1 1

nothing comes of a call after its deadline
  must RFC 9113, 5.1 (closed): \"MUST NOT send frames other than PRIORITY on a closed stream\"
  needs streams at least 16
  rounds 16
  several 16 FullDuplexCall grpc-timeout=10m
  await failed 1
  quiet
  want orderly

the deadline's text
  ours status 4 `deadline exceeded`
  headers 1 04 call:FullDuplexCall grpc-timeout=10m
  await answered 1
  want status 1 4 and trailer 1 grpc-message=deadline exceeded

a call is cancelled
  must RFC 9113, 6.9: frames but DATA \"MUST be accepted and processed\"; 6.4: of one stream
  needs streams at least 2
  control status 5 0
  headers 1 04 call:FullDuplexCall
  data 1 00 00 00000004 12020801
  await replies 1 1
  !reset 1 00 00000008
  request 5
  want status 5 0

a call is cancelled before its first message
  must RFC 9113, 5.4.2: \"MUST NOT send a RST_STREAM in response to a RST_STREAM frame\"
  control status 3 0 and ignored
  headers 1 04 call:StreamingInputCall
  sync
  !reset 1 00 00000008
  request 3
  await answered 3
  want status 3 0 and ignored

a call is cancelled inside a message
  must RFC 9113, 5.4.2: \"MUST NOT send a RST_STREAM in response to a RST_STREAM frame\"
  control status 3 0 and ignored
  headers 1 04 call:StreamingInputCall
  data 1 00 00 00000010 0a0e
  sync
  !reset 1 00 00000008
  request 3
  await answered 3
  want status 3 0 and ignored

a call is cancelled after its end
  must RFC 9113, 5.4.2: \"MUST NOT send a RST_STREAM in response to a RST_STREAM frame\"
  control answered 3 and ignored
  settings 0 00 000400000000
  await acks 2
  fetch 1
  !reset 1 00 00000008
  headers 3 04 call:Nothing
  data 3 01 0000000000
  await answered 3
  want answered 3 and ignored

fifty calls that are cancelled at once
  should RFC 9113, 6.4: of one stream each; 10.5: a server \"MAY treat\" it as too much
  needs streams at least 51
  many 50 StreamingInputCall
  cancel 50
  request 101
  want status 101 0
  want reset 101 7
  want connection 1 2 11

64 calls at once
  ours all are taken
  needs streams at least 64
  many 64 FullDuplexCall
  data 127 01
  data 1 01
  want status 1 0 and status 127 0
";
