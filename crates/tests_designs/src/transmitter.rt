//! A text of two modules.

/// `examples/uart_tx.v`
pub const TRANSMITTER: &str = "`timescale 1ns/1ps
module uart_tx #(parameter DIV = 4) (
  input wire clk, rst_n, start,
  input wire [7:0] data,
  output wire txd, busy);
  localparam [1:0] IDLE = 2'd0, LOAD = 2'd1, SEND = 2'd2;
  reg [1:0] state, next;
  reg [9:0] frame;
  reg [3:0] left;
  wire tick;
  baud #(.DIV(DIV)) u_baud (.clk(clk), .rst_n(rst_n), .tick(tick));
  assign txd = frame[0];
  assign busy = (state != IDLE);
  always @* begin
    next = state;
    case (state)
      IDLE: if (start) next = LOAD;
      LOAD: next = SEND;
      SEND: if (tick && left == 4'd0) next = IDLE;
      default: next = IDLE;
    endcase
  end
  always @(posedge clk or negedge rst_n)
    if (!rst_n) begin
      state <= IDLE; frame <= 10'h3ff; left <= 4'd0;
    end else begin
      state <= next;
      if (state == LOAD) begin
        frame <= {1'b1, data, 1'b0}; left <= 4'd9;
      end else if (state == SEND && tick) begin
        frame <= {1'b1, frame[9:1]}; left <= left - 4'd1;
      end
    end
endmodule
module baud #(parameter DIV = 4) (input wire clk, rst_n, output wire tick);
  reg [7:0] n;
  assign tick = (n == DIV - 1);
  always @(posedge clk or negedge rst_n)
    if (!rst_n) n <= 8'd0;
    else if (tick) n <= 8'd0;
    else n <= n + 8'd1;
endmodule
";
